//! The fields of a case.
ghost use Rattle.std.specs.Prelude.{ℕ, ◌≡◌, ◌≤◌, ◌<◌, List, [], ◌∷◌, length, IfOk, IfSome, flat_map, refl};
ghost use Rattle.std.specs.Io.KnownBytes.{Consumes};
ghost use Rattle.std.specs.Int.{to_be_bytes, w16, w32, w64};
ghost use Rattle.std.proofs.Common.{rules};
ghost use Rattle.lvs_cases.specs.Reading.{field_of, left};

use crate::input::{Broken, CaseReader};
use std::io::Read;

/// A number of a field, high byte first.
pub trait Number: Copy {
    /// How many bytes it has there.
    const SIZE: usize;

    ghost SIZE: { ℕ };

    /// The bytes that stand for it in a field.
    ghost bytes: { Self → List ℕ };

    fn take<R: Read>(input: &mut CaseReader<R>) -> Result<Self, Broken>
        ensures { IfOk result (λ n. Consumes (left R.remaining input.old) (left R.remaining input.new) (bytes n)) };

    ghost has_bytes: { 0 < SIZE };

    ghost sized: { (n : Self) → length (bytes n) ≡ SIZE };
}

impl Number for u16 {
    const SIZE: usize = 2;

    ghost SIZE = { 2 };

    ghost has_bytes = { Prim.search rules };

    ghost bytes = { to_be_bytes w16 };

    ghost sized = { λ _. refl };

    fn take<R: Read>(input: &mut CaseReader<R>) -> Result<u16, Broken> {
        Ok(u16::from_be_bytes(input.array()?))
    }
}

impl Number for u32 {
    const SIZE: usize = 4;

    ghost SIZE = { 4 };

    ghost has_bytes = { Prim.search rules };

    ghost bytes = { to_be_bytes w32 };

    ghost sized = { λ _. refl };

    fn take<R: Read>(input: &mut CaseReader<R>) -> Result<u32, Broken> {
        Ok(u32::from_be_bytes(input.array()?))
    }
}

impl Number for u64 {
    const SIZE: usize = 8;

    ghost SIZE = { 8 };

    ghost has_bytes = { Prim.search rules };

    ghost bytes = { to_be_bytes w64 };

    ghost sized = { λ _. refl };

    fn take<R: Read>(input: &mut CaseReader<R>) -> Result<u64, Broken> {
        Ok(u64::from_be_bytes(input.array()?))
    }
}

impl<R: Read> CaseReader<R> {
    pub fn letter(&mut self) -> Option<u8>
        ensures { IfSome result (λ b. Consumes (left R.remaining self.old) (left R.remaining self.new) (b ∷ [])) }
    {
        let [letter]: [u8; 1] = self.array().ok()?;
        Some(letter)
    }

    /// A field of bytes, at the front of `space`. One that has no room there is broken.
    pub fn field<'a>(&mut self, space: &'a mut [u8]) -> Result<&'a mut [u8], Broken>
        ensures room { IfOk result (λ part. length part.now ≤ length space.old) }
        ensures bytes { IfOk result (λ part. Consumes (left R.remaining self.old) (left R.remaining self.new) (field_of part.now)) }
    {
        let size = self.size()?;
        let part = space.get_mut(..size).ok_or(Broken)?;
        self.read_exact(part)?;
        Ok(part)
    }

    /// A field of numbers, at the front of `space`. One that ends within a number is broken too.
    pub fn numbers<'a, T: Number>(&mut self, space: &'a mut [T]) -> Result<&'a mut [T], Broken>
        ensures room { IfOk result (λ part. length part.now ≤ length space.old) }
        ensures bytes { IfOk result (λ part. Consumes (left R.remaining self.old) (left R.remaining self.new) (field_of (flat_map T.bytes part.now))) }
    {
        let size = self.size()?;
        if size % T::SIZE != 0 {
            return Err(Broken);
        }
        let part = space.get_mut(..size / T::SIZE).ok_or(Broken)?;
        for x in part.iter_mut() {
            *x = T::take(self)?;
        }
        Ok(part)
    }

    /// How many bytes a field has.
    fn size(&mut self) -> Result<usize, Broken>
        ensures { IfOk result (λ n. Consumes (left R.remaining self.old) (left R.remaining self.new) (to_be_bytes w32 n)) }
    {
        Ok(u32::take(self)? as usize)
    }
}
