//! The line of a refused program: a code, and the name or the numbers that it is about.

ghost use Rattle.std.specs.Prelude.{◌≡◌, ◌++◌, IfOk, OnOk, codes, string_bytes};
ghost use Rattle.std.specs.List.{flat_map};
ghost use Rattle.program_checks.specs.Lines.{refusal_line, type_fault_line, libfunc_fault_line, linear_fault_line, entry_fault_line, place_fault_line, gas_fault_line, name_line, spaced};

use crate::refusal::Refusal;
use ap_refs::RefFault;
use entry_check::EntryFault;
use gas_solver::GasFault;
use libfunc_registry::SigFault;
use linear_check::LinearFault;
use sierra_types::Name;
use std::alloc::{AllocError, Global};
use type_table::TypeFault;

/// The line of a refusal, in bytes, as the names of a program are bytes. Out of memory has no line.
pub fn refusal_line(alloc: Global, refusal: &Refusal) -> Result<Vec<u8>, AllocError>
    ensures { IfOk result (λ line. line.items ≡ refusal_line refusal.now) }
{
    match refusal {
        Refusal::Types(fault) => type_fault_line(alloc, fault),
        Refusal::Libfuncs(fault) => libfunc_fault_line(alloc, fault),
        Refusal::Statements(fault) => Ok(linear_fault_line(alloc, *fault)?.into_bytes()),
        Refusal::Entry(fault) => Ok(entry_fault_line(alloc, *fault)?.into_bytes()),
        Refusal::Places(fault) => Ok(place_fault_line(alloc, *fault)?.into_bytes()),
        Refusal::Gas(fault) => Ok(gas_fault_line(alloc, fault)?.into_bytes()),
        Refusal::Memory => Ok(Vec::new(alloc)),
    }
}

/// The line of refused types and functions.
fn type_fault_line(alloc: Global, fault: &TypeFault) -> Result<Vec<u8>, AllocError>
    ensures { IfOk result (λ line. line.items ≡ type_fault_line fault.now) }
{
    match fault {
        TypeFault::UnknownType(name) => name_line(alloc, b"P10 ", name),
        TypeFault::BadArgs(id) => name_line(alloc, b"P12 ", id),
        TypeFault::TypeInfoDiffers(id) => name_line(alloc, b"P13 ", id),
        TypeFault::TypeCycle(id) => name_line(alloc, b"P15 ", id),
        TypeFault::SizeAbove(id) => name_line(alloc, b"P16 ", id),
        TypeFault::Duplicate(id) => name_line(alloc, b"P17 ", id),
        TypeFault::FunctionType(id) => name_line(alloc, b"P18 ", id),
        TypeFault::Memory => Ok(Vec::new(alloc)),
    }
}

/// The line of a libfunc that has no signature.
fn libfunc_fault_line(alloc: Global, fault: &SigFault) -> Result<Vec<u8>, AllocError>
    ensures { IfOk result (λ line. line.items ≡ libfunc_fault_line fault.now) }
{
    match fault {
        SigFault::UnknownLibfunc(name) => name_line(alloc, b"P11 ", name),
        SigFault::BadArgs(id) => name_line(alloc, b"P12 ", id),
        SigFault::AbilityMissing(id) => name_line(alloc, b"P14 ", id),
        SigFault::Memory => Ok(Vec::new(alloc)),
    }
}

/// The line of a statement that the linear check refuses.
fn linear_fault_line(alloc: Global, fault: LinearFault) -> Result<String, AllocError>
    ensures { IfOk result (λ line. string_bytes line ≡ linear_fault_line fault) }
{
    match fault {
        LinearFault::VarMissing {
            statement,
            variable,
        } => { format!(in alloc; "P20 {statement} {variable}\n") }
        LinearFault::VarType {
            statement,
            variable,
        } => { format!(in alloc; "P21 {statement} {variable}\n") }
        LinearFault::VarLeft {
            statement,
            variable,
        } => { format!(in alloc; "P22 {statement} {variable}\n") }
        LinearFault::VarTaken {
            statement,
            variable,
        } => { format!(in alloc; "P23 {statement} {variable}\n") }
        LinearFault::MergeDiffers {
            statement,
            variable,
        } => { format!(in alloc; "P24 {statement} {variable}\n") }
        LinearFault::AlignMissing { statement } => format!(in alloc; "P25 {statement}\n"),
        LinearFault::SharedStatement { statement } => format!(in alloc; "P26 {statement}\n"),
        LinearFault::Unreachable { statement } => format!(in alloc; "P27 {statement}\n"),
        LinearFault::Shape { statement } => format!(in alloc; "P28 {statement}\n"),
        LinearFault::Memory => Ok(String::new(alloc)),
    }
}

/// The line of a program without a main, or with one that has another type.
fn entry_fault_line(alloc: Global, fault: EntryFault) -> Result<String, AllocError>
    ensures { IfOk result (λ line. string_bytes line ≡ entry_fault_line fault) }
{
    match fault {
        EntryFault::EntryType(position) => format!(in alloc; "P50 {position}\n"),
        EntryFault::NoMain => String::from_str(alloc, "P51\n"),
    }
}

/// The line of a statement without places.
fn place_fault_line(alloc: Global, fault: RefFault) -> Result<String, AllocError>
    ensures { IfOk result (λ line. string_bytes line ≡ place_fault_line fault) }
{
    match fault {
        RefFault::MergeDiffers {
            statement,
            variable: Some(variable),
        } => format!(in alloc; "P24 {statement} {variable}\n"),
        RefFault::MergeDiffers {
            statement,
            variable: None,
        } => format!(in alloc; "P24 {statement} -\n"),
        RefFault::NotOnStack {
            statement,
            variable,
        } => format!(in alloc; "P30 {statement} {variable}\n"),
        RefFault::NotPlain {
            statement,
            variable,
        } => format!(in alloc; "P31 {statement} {variable}\n"),
        RefFault::Dangling {
            statement,
            variable,
        } => format!(in alloc; "P32 {statement} {variable}\n"),
        RefFault::OffsetTooFar {
            statement,
            variable,
        } => format!(in alloc; "P33 {statement} {variable}\n"),
        RefFault::LocalRule { statement } => format!(in alloc; "P34 {statement}\n"),
        RefFault::Memory => Ok(String::new(alloc)),
    }
}

/// The line of a program without a gas plan.
fn gas_fault_line(alloc: Global, fault: &GasFault) -> Result<String, AllocError>
    ensures { IfOk result (λ line. string_bytes line ≡ gas_fault_line fault.now) }
{
    match fault {
        GasFault::Cycle(statements) => cycle_line(alloc, statements.items()),
        GasFault::TooLarge(statement) => format!(in alloc; "P41 {statement}\n"),
        GasFault::Memory => Ok(String::new(alloc)),
    }
}

/// The line of a cycle, by its statements in order.
fn cycle_line(alloc: Global, statements: &[u64]) -> Result<String, AllocError>
    ensures { IfOk result (λ line. string_bytes line ≡ (codes "P40" ++ flat_map spaced statements.now) ++ codes "\n") }
{
    let mut line = String::from_str(alloc, "P40")?;
    for statement in statements {
        push_number(&mut line, *statement)?;
    }
    line.push('\n')?;
    Ok(line)
}

/// Adds a number after one space.
fn push_number(line: &mut String, number: u64) -> Result<(), AllocError>
    ensures { OnOk result (string_bytes line.new ≡ string_bytes line.old ++ spaced number) }
{
    write!(line, " {number}")
}

/// A code with its space, and a name.
fn name_line(alloc: Global, code: &[u8], name: &Name) -> Result<Vec<u8>, AllocError>
    ensures { IfOk result (λ line. line.items ≡ name_line code.now name.now) }
{
    let mut line = Vec::new(alloc);
    line.extend_from_slice(code)?;
    line.extend_from_slice(name.bytes())?;
    line.push(b'\n')?;
    Ok(line)
}
