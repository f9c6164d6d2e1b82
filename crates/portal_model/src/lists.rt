//! Lists of plans and of codes.

ghost use Rattle.std.specs.Prelude.{◌≡◌, ◌++◌, ◌∷◌, [], IfOk, IfErr, All};
ghost use Rattle.portal_codes.specs.Code.{IsCode};

use crate::plan::Plan;
use crate::proof::witness;
use portal_codes::Code;
use std::alloc::{AllocError, Global};
use std::marker::Model;

/// A list of plans, in order.
#[derive(Drop)]
pub struct Plans {
    items: Vec<Plan>,
}

impl Model for Plans {
    ghost use Rattle.std.specs.Prelude.{List};
    ghost use Rattle.portal_model.specs.declared.plan.Plan.{Plan};

    ghost Value = { List Plan };

    ghost view = { λ a. a.items.items };
}

impl Plans {
    /// Returns an empty list of plans.
    pub fn new(alloc: Global) -> Plans
        ensures { result ≡ [] }
    {
        Plans {
            items: Vec::new(alloc),
        }
    }

    /// Returns the plans, in order.
    pub fn as_slice(&self) -> &[Plan]
        ensures { result.now ≡ self.now }
    {
        &self.items
    }

    /// Appends a plan.
    ///
    /// Error: `AllocError` when out of memory.
    pub fn push(&mut self, plan: Plan) -> Result<(), AllocError>
        ensures ok { IfOk result (λ _. self.new ≡ self.old ++ plan ∷ []) }
        ensures err { IfErr result (λ _. self.new ≡ self.old) }
    {
        self.items.push(plan)?;
        Ok(())
    }
}

/// A list of codes, in order. `as_slice` also gives that each value is a code.
#[derive(Drop)]
pub struct Codes {
    items: Vec<Code>,
}

impl Model for Codes {
    ghost use Rattle.std.specs.Prelude.{List, ℕ, All};
    ghost use Rattle.portal_codes.specs.Code.{IsCode};

    ghost Value = { List (List ℕ) };

    ghost view = { λ a. a.items.items };

    ghost invariant = { λ a. All IsCode a.items.items };
}

impl Codes {
    /// Returns an empty list of codes.
    pub fn new(alloc: Global) -> Codes
        ensures { result ≡ [] }
    {
        Codes {
            items: Vec::new(alloc),
        }
    }

    /// Copies a slice of codes into a list.
    ///
    /// Error: `AllocError` when out of memory.
    pub fn from_slice(alloc: Global, codes: &[Code]) -> Result<Codes, AllocError>
        ensures { IfOk result (λ list. list ≡ codes.now) }
    {
        let mut list = Codes::new(alloc);
        for code in codes {
            list.push(*code)?;
        }
        Ok(list)
    }

    /// Returns the codes, in order.
    pub fn as_slice(&self) -> &[Code]
        ensures value { result.now ≡ self.now }
        ensures codes { All IsCode self.now }
    {
        self.items.as_slice()
    }

    /// Appends a code.
    ///
    /// Error: `AllocError` when out of memory.
    pub fn push(&mut self, code: Code) -> Result<(), AllocError>
        ensures ok { IfOk result (λ _. self.new ≡ self.old ++ code ∷ []) }
        ensures err { IfErr result (λ _. self.new ≡ self.old) }
    {
        // The contract of `text` gives that the value is a code, which the list's invariant needs.
        witness(code.text());
        self.items.push(code)?;
        Ok(())
    }
}
