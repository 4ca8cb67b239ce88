//! Rules of fields.
ghost use Rattle.std.specs.Prelude.{◌≡◌, ◌⊎◌, ℕ, List, [], ◌∷◌, ◌++◌, OnOk, IfErr};
ghost use Rattle.wire_fields.specs.Fields.{Part, part_of};
ghost use Rattle.field_rules.specs.Rules.{Last as IsLast, Repeated as IsRepeated, ◌&◌};
ghost use Rattle.field_reader.specs.Faults.{IsInside, Wrong, ◌or◌};
ghost use Rattle.field_reader.specs.declared.fault.RecordError.{RecordError};

use crate::{Met, RecordError, Rule};
use hb_wire::Items;
use std::alloc::Global;

/// What is known of a message's fields, as far as it was read.
pub trait Fields: Drop {
    /// The fields spell these values.
    ghost rules: { List (ℕ × Part) → Self → Type 0 };

    /// Why a field behind some others is wrong, which stands at a place, and the bytes of its value at another.
    ghost wrong: { List (ℕ × Part) → ℕ × Part → ℕ → ℕ → RecordError → Type 0 };

    /// What is known of no field.
    fn start(alloc: Global) -> Self
        ensures { rules [] result };

    /// Takes one field more. An unknown one is passed over.
    fn add(
        &mut self,
        alloc: Global,
        bytes: &[u8],
        number: u32,
        met: &Met,
    ) -> Result<(), RecordError>
        requires { IsInside (part_of bytes.now met.now.value) met.now.inside }
        ensures ok { OnOk result ((parts : List (ℕ × Part)) → rules parts self.old
            → rules (parts ++ (number, part_of bytes.now met.now.value) ∷ []) self.new) }
        ensures fault { IfErr result (λ e. (parts : List (ℕ × Part)) → rules parts self.old
            → wrong parts (number, part_of bytes.now met.now.value) met.now.at met.now.inside e) };
}

/// The last value of a field that is not repeated.
#[derive(Drop)]
pub struct Last<const N: u32, R: Rule> {
    pub value: Option<R::Value>,
}

impl<const N: u32, R: Rule> Fields for Last<N, R> {
    ghost rules = { λ parts fields. IsLast R.spells N parts fields.value };

    ghost wrong = { λ parts. Wrong N R.faults };

    fn start(_alloc: Global) -> Last<N, R> {
        Last { value: None }
    }

    fn add(
        &mut self,
        alloc: Global,
        bytes: &[u8],
        number: u32,
        met: &Met,
    ) -> Result<(), RecordError> {
        if number == N {
            self.value = Some(R::read(alloc, bytes, met)?);
        }
        Ok(())
    }
}

/// The values of a repeated field.
#[derive(Drop)]
pub struct Repeated<const N: u32, R: Rule> {
    pub values: Items<R::Value>,
}

impl<const N: u32, R: Rule> Fields for Repeated<N, R> {
    ghost rules = { λ parts fields. IsRepeated R.spells N parts fields.values };

    ghost wrong = { λ parts. Wrong N R.faults };

    fn start(alloc: Global) -> Repeated<N, R> {
        Repeated {
            values: Items::new(alloc),
        }
    }

    fn add(
        &mut self,
        alloc: Global,
        bytes: &[u8],
        number: u32,
        met: &Met,
    ) -> Result<(), RecordError> {
        if number == N {
            let value = R::read(alloc, bytes, met)?;
            match self.values.push(value) {
                Ok(()) => {}
                Err(_refused) => return Err(RecordError::NoMemory),
            }
        }
        Ok(())
    }
}

impl<A: Fields, B: Fields> Fields for (A, B) {
    ghost rules = { λ parts fields. (A.rules & B.rules) parts fields };

    ghost wrong = { λ parts. A.wrong parts or B.wrong parts };

    fn start(alloc: Global) -> (A, B) {
        (A::start(alloc), B::start(alloc))
    }

    fn add(
        &mut self,
        alloc: Global,
        bytes: &[u8],
        number: u32,
        met: &Met,
    ) -> Result<(), RecordError> {
        self.0.add(alloc, bytes, number, met)?;
        self.1.add(alloc, bytes, number, met)
    }
}
