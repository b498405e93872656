//! Laws about the definitions, without code: declared libfuncs have signatures or the first that has none is refused, and
//! each of these is in one way alone. Whoever joins the parts of a program's check stands on them.

ghost use Rattle.std.specs.Prelude.{◌≡◌, ◌⊎◌, List};
ghost use Rattle.sierra_types.specs.declared.program.LibfuncDecl.{LibfuncDecl};
ghost use Rattle.type_table.specs.View.{TypesView, IsTable};
ghost use Rattle.libfunc_registry.specs.declared.sig.Sig.{Sig};
ghost use Rattle.libfunc_registry.specs.declared.sig.SigFault.{SigFault};
ghost use Rattle.libfunc_registry.specs.Signature.{HasSignatures};
ghost use Rattle.libfunc_registry.specs.Refusals.{FirstFault};

/// The declarations have signatures, or a first one is refused.
pub fn signatures_or_fault()
    ensures { (types : TypesView) → IsTable types → (decls : List LibfuncDecl) →
        ((sigs : List Sig) × HasSignatures types decls sigs) ⊎ ((fault : SigFault) × FirstFault types decls fault) }
{}

/// They don't have signatures where one is refused.
pub fn never_both()
    ensures { (types : TypesView) → IsTable types → (decls : List LibfuncDecl) (sigs : List Sig) (fault : SigFault) →
        HasSignatures types decls sigs → FirstFault types decls fault → ⊥ }
{}

/// The first refusal is one.
pub fn one_fault()
    ensures { (types : TypesView) → IsTable types → (decls : List LibfuncDecl) (a b : SigFault) →
        FirstFault types decls a → FirstFault types decls b → a ≡ b }
{}

/// The signatures are one list.
pub fn one_signature()
    ensures { (types : TypesView) → IsTable types → (decls : List LibfuncDecl) (a b : List Sig) →
        HasSignatures types decls a → HasSignatures types decls b → a ≡ b }
{}
