//! Files in memory whose reads never fail: what comes in is a list of files, what goes out are reads by name. The layers
//! above read from it where no fault is to come.

ghost use Rattle.std.specs.Prelude.{◌≡◌, ◌≢◌, [], ◌≤◌, length, map, Some, Err, IfOk, IsErrOf, MatchResult, string_bytes};
ghost use Rattle.edge_io.specs.Counts.{Rose};
ghost use Rattle.edge_io.specs.Files.{Keeps, ForFile, ReadsAt};
ghost use Rattle.edge_io.specs.FileTable.{file_map, quiet_view, read_answer, read_buffer, counted};

use crate::files::{FileFault, Files};
use crate::mem_files::MemFiles;

/// A list of files that is read by name. Of two equal names the first counts. No read fails, so its count of faults is 0.
#[derive(Drop)]
pub struct QuietFiles {
    files: MemFiles,
    ghost quiet: { files.fails ≡ [] },
}

impl QuietFiles {
    /// These files. It takes no memory.
    pub fn new(files: Vec<(String, Vec<u8>)>) -> QuietFiles
        ensures files { result.files.files ≡ map (λ f. (string_bytes f.0, f.1.items)) files.items }
        ensures misses { result.files.misses ≡ 0 }
    {
        let fails = Vec::new(*files.allocator());
        QuietFiles {
            files: MemFiles::new(files, fails),
        }
    }
}

impl Files for QuietFiles {
    ghost view = { λ q. quiet_view q.files };

    fn read_at(&mut self, name: &str, at: u64, buf: &mut [u8]) -> Result<usize, FileFault>
        ensures keeps { Keeps (quiet_view self.old.files) (quiet_view self.new.files) }
        ensures within { IfOk result (λ n. n ≤ length buf.old) }
        ensures known { ForFile (Some (file_map self.old.files.files)) name.now
            (result ≡ Err FileFault.Missing)
            (λ bytes. MatchResult result (λ n. ReadsAt bytes at buf.new n) (λ e. e ≡ FileFault.Failed)) }
        ensures missing { IsErrOf result FileFault.Missing → Rose self.old.files.misses self.new.files.misses }
        ensures failed { IsErrOf result FileFault.Failed → Rose 0 0 }
        ensures never_fails { result ≢ Err FileFault.Failed }
        ensures answer { result ≡ read_answer self.old.files name.now at (length buf.old) }
        ensures buffer { buf.new ≡ read_buffer self.old.files name.now at buf.old }
        ensures after { self.new.files ≡ counted self.old.files result }
    {
        self.files.read_at(name, at, buf)
    }
}
