//! Paths of nodes (xenstore.txt, "Paths").
//!
//! A [`Path`] is read once and then kept as the text of an absolute path, in one allocation. Contracts
//! see it as the list of the names that lead from the root to the node. [`laws`] has the law on which its
//! comparison rests.
#![tactic(auto)]

mod fault;
pub mod laws;
mod order;
mod text;

ghost use Rattle.std.specs.Prelude.{◌≡◌, Err, ◌↔◌, ◌≤◌, ℕ, false, [], ◌∷◌, length, take, if◌then◌else◌, IsTrue, IfOk, option_to_list};
ghost use Rattle.xs_base.specs.Memory.{Gives};
ghost use Rattle.xs_model.specs.Paths.{path_of, parents, is_below, text};
ghost use Rattle.xs_path.specs.Texts.{leaf_of};

pub use fault::is_path;
use std::alloc::Global;
use std::fmt;
use std::marker::Model;
use xs_base::{Items, NoMemory};
pub use xs_model::path::PathFault;

/// The path of a node. Paths stand in the order of their names, so that a node is followed by all nodes
/// below it.
#[derive(Drop)]
pub struct Path {
    text: Vec<u8>,
}

/// A list of paths.
pub type Paths = Items<Path>;

impl Model for Path {
    ghost use Rattle.std.specs.Prelude.{List, ℕ};
    ghost use Rattle.xs_model.specs.Paths.{absolute_path};
    ghost use Rattle.xs_path.specs.Texts.{IsPathText};

    ghost Value = { List (List ℕ) };

    ghost view = { λ p. absolute_path p.text.items };

    ghost invariant = { λ p. IsPathText p.text.items };
}

impl Path {
    /// The path `/`.
    pub fn root(alloc: Global) -> Result<Path, NoMemory>
        ensures { IfOk result (λ p. p ≡ []) }
    {
        let text = Vec::from_slice(alloc, b"/")?;
        Ok(Path { text })
    }

    /// The path that bytes from a domain are: an absolute path as it stands, and any other below
    /// `/local/domain/<domid>`. Costs O(bytes).
    ///
    /// A refusal is the first fault of the bytes, or want of memory for a path without a fault.
    pub fn read(alloc: Global, bytes: &[u8], domid: u16) -> Result<Path, PathFault>
        requires { domid ≤ 32751 }
        ensures gives { Gives PathFault.NoMemory result (path_of bytes.now domid) }
        ensures fault { (fault : PathFault) → path_of bytes.now domid ≡ Err fault → result ≡ Err fault }
    {
        if let Some(fault) = fault::first_fault(bytes) {
            return Err(fault);
        }
        let text = if bytes[0] == b'/' {
            Vec::from_slice(alloc, bytes)
        } else {
            text::at_home(alloc, bytes, domid)
        };
        match text {
            Ok(text) => Ok(Path { text }),
            Err(_) => Err(PathFault::NoMemory),
        }
    }

    /// The text of the absolute path, at most 3072 bytes. Every domain that sends it means this path.
    pub fn bytes(&self) -> &[u8]
        ensures text { result.now ≡ text self.now }
        ensures read { (domid : ℕ) → path_of result.now domid ≡ Ok self.now }
    {
        &self.text
    }

    /// A second path like this one. Costs O(bytes).
    pub fn copy(&self, alloc: Global) -> Result<Path, NoMemory>
        ensures { IfOk result (λ p. p ≡ self.now) }
    {
        let text = Vec::from_slice(alloc, &self.text)?;
        Ok(Path { text })
    }

    /// Whether this is `/`. Costs O(1).
    pub fn is_root(&self) -> bool
        ensures { IsTrue result ↔ (self.now ≡ []) }
    {
        self.text.len() == 1
    }

    /// The number of names, 0 for `/`. Costs O(bytes).
    pub fn depth(&self) -> usize
        ensures { result ≡ length self.now }
    {
        text::name_count(&self.text)
    }

    /// The last name, empty for `/`. Costs O(its bytes).
    pub fn leaf(&self) -> &[u8]
        ensures { result.now ≡ leaf_of self.now }
    {
        let slash = text::last_slash(&self.text);
        &self.text[slash + 1..]
    }

    /// The path without its last name; `/` has none. Costs O(bytes).
    pub fn parent(&self, alloc: Global) -> Result<Option<Path>, NoMemory>
        ensures { IfOk result (λ p. option_to_list p ≡ parents self.now) }
    {
        if self.is_root() {
            return Ok(None);
        }
        let text = Vec::from_slice(alloc, text::parent_of(&self.text))?;
        Ok(Some(Path { text }))
    }

    /// Takes the last name off and answers true; for `/` it answers false. It takes no memory, so that a
    /// copy can walk up to the root.
    pub fn pop(&mut self) -> bool
        ensures parent { parents self.old ≡ (if result then self.new ∷ [] else []) }
        ensures root { result ≡ false → self.new ≡ self.old }
    {
        if self.is_root() {
            return false;
        }
        let len = text::parent_of(&self.text).len();
        self.text.truncate(len);
        true
    }

    /// The path of the first so many names, or a copy where there are no more: an ancestor by its depth.
    /// Costs O(bytes).
    pub fn prefix(&self, alloc: Global, names: usize) -> Result<Path, NoMemory>
        ensures { IfOk result (λ p. p ≡ take names self.now) }
    {
        let text = Vec::from_slice(alloc, text::prefix_of(&self.text, names))?;
        Ok(Path { text })
    }

    /// Whether this path is `other` or below it. Costs O(bytes of `other`).
    pub fn is_below(&self, other: &Path) -> bool
        ensures { result ≡ is_below other.now self.now }
    {
        text::is_below(&self.text, &other.text)
    }
}

impl fmt::Debug for Path {
    fn fmt<W: fmt::Write>(&self, f: &mut fmt::Formatter<W>) -> fmt::Result {
        for byte in &self.text {
            f.write_char(char::from(*byte))?;
        }
        Ok(())
    }
}
