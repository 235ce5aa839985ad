//! What is visible at a place of a text.

ghost use Rattle.std.specs.Prelude.{◌≡◌, length, slice_get};
ghost use Rattle.std.specs.Option.{option_copied};
ghost use Rattle.sp_judge.specs.Names as spec_names;
ghost use Rattle.sp_judge.specs.Visible.{definition_at, see};

use sp_core::Expr;
use sp_naming::Entity;
use sp_scopes::{Head, Scopes};
use sp_text::Name;
use sp_values::Ty;
use sqlite_items::at;
use std::marker::Model;

/// Where an expression stands, as to the quoted references in it.
#[derive(Clone, Copy, Debug, PartialEq, Eq)]
pub enum Site {
    /// Outside effects.
    Outside,
    /// The condition of an IF effect.
    Guard,
    /// An argument of a target, the value of a change or that of a result.
    Right,
    /// An effect that is neither a change nor a result. It stays in no specification.
    Loose,
}

/// What a name stands for: nothing, a variable by its number, or what all places share.
#[derive(Clone, Copy, Debug)]
pub enum Meaning {
    Nothing,
    Variable(u32, Ty),
    Shared(Entity),
}

/// What is visible in a module, with the expressions of definitions.
#[derive(Drop)]
pub struct Scope<'a> {
    /// The names, and the module that sees them.
    pub names: &'a Scopes,
    pub module_number: u16,
    /// The expressions of the definitions from the first on; no later definition may be called.
    pub cores: &'a [Expr],
    /// The least and the greatest level.
    pub bottom: u16,
    pub top: u16,
}

impl<'a> Model for Scope<'a> {
    ghost use Rattle.std.specs.Coded.{codes};
    ghost use Rattle.sp_core.specs.contracts.expr.Expr as expr;
    ghost use Rattle.sp_tree.specs.contracts.expr.ExprTree as text;
    ghost use Rattle.sp_judge.specs.Visible.{Visible};

    ghost Value = { Visible };

    ghost coded = { Prim.hlevel (codes, expr.the_row.coded, text.the_row.coded) };

    ghost view = { λ s. record { names = s.names.now; number = s.module_number; cores = s.cores.now; bottom = s.bottom; top = s.top } };
}

impl<'a> Scope<'a> {
    // What a name stands for in the module, where no variable has it.
    pub(crate) fn find_shared(&self, name: &Name) -> Meaning
        ensures { result ≡ spec_names.shared_of (see self.now name.now) }
    {
        match self.names.find(self.module_number, name.bytes()) {
            None => Meaning::Nothing,
            Some(entity) => Meaning::Shared(entity),
        }
    }

    // The head of a definition.
    fn definition(&self, d: u16) -> Option<&Head>
        ensures { option_copied result ≡ definition_at self.now d }
    {
        match at(self.names.definitions(), d as usize) {
            None => None,
            Some(definition) => Some(&definition.head),
        }
    }

    /// The head of what is called.
    pub fn head_of(&self, meaning: Meaning) -> Option<&Head>
        ensures { option_copied result ≡ spec_names.head_of self.now meaning }
    {
        match meaning {
            Meaning::Shared(Entity::Param(p)) => at(self.names.parameters(), p as usize),
            Meaning::Shared(Entity::Function(g)) => at(self.names.functions(), g as usize),
            Meaning::Shared(Entity::Definition(d)) => self.definition(d),
            _ => None,
        }
    }

    /// The expression of a definition that may be called.
    pub fn core_of(&self, d: u16) -> Option<&Expr>
        ensures { option_copied result ≡ slice_get self.now.cores d }
    {
        at(self.cores, d as usize)
    }

    // How many definitions may be called.
    pub(crate) fn core_count(&self) -> usize
        ensures { result ≡ length self.now.cores }
    {
        self.cores.len()
    }

    pub(crate) fn bottom(&self) -> u16
        ensures { result ≡ self.now.bottom }
    {
        self.bottom
    }

    pub(crate) fn top(&self) -> u16
        ensures { result ≡ self.now.top }
    {
        self.top
    }
}
