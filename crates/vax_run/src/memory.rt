// The memory of references.
ghost use Rattle.std.specs.Prelude.{◌≡◌, ◌≤◌, ◌<◌, ◌^◌, ◌+◌, ◌-◌, ◌%◌, bit_and, bit_or, ℕ, [], IfOk, OnOk};
ghost use Rattle.image_file.specs.Values.{ImageValue};
ghost use Rattle.vax_meaning.specs.Made.{input_at, gets_by};
ghost use Rattle.vax_meaning.specs.References.{value_at, with_byte, with_value, reply_of, changed};

use image_file::Image;
use std::alloc::{AllocError, Global};
use std::collections::BTreeMap;
use vax_form::{RefKind, Reference};

/// What references left: the bytes that were written over those of the image, how many input bytes were asked for, and
/// the bytes that were put.
#[derive(Drop)]
pub(crate) struct Memory {
    written: BTreeMap<u32, u8>,
    pub(crate) gets: usize,
    pub(crate) output: Vec<u8>,
}

impl Memory {
    ghost use Rattle.vax_run.specs.Memory.{byte_of, put_by};
    ghost use Rattle.image_file.specs.Memory.{byte_in};

    /// The memory before any reference.
    pub(crate) fn new(alloc: Global) -> Memory
        ensures bytes { (image : ImageValue) → byte_of image result ≡ byte_in image }
        ensures gets { result.gets ≡ 0 }
        ensures output { result.output.items ≡ [] }
    {
        Memory {
            written: BTreeMap::new(alloc),
            gets: 0,
            output: Vec::new(alloc),
        }
    }

    pub(crate) fn byte(&self, image: &Image, address: u32) -> u8
        ensures { result ≡ byte_of image.now self.now address }
    {
        match self.written.get(&address) {
            Some(byte) => *byte,
            None => image.byte(address).unwrap_or(0),
        }
    }

    /// The number that up to eight bytes spell.
    fn value(&self, image: &Image, address: u32, count: u8) -> u64
        requires { count ≤ 8 }
        ensures value { result ≡ value_at (byte_of image.now self.now) address count }
        ensures small { result < 256 ^ count }
    {
        let mut value = 0;
        for read in 0..count {
            let place = count - 1 - read;
            let byte = self.byte(image, address.wrapping_add(u32::from(place)));
            value = 256 * value + u64::from(byte);
        }
        value
    }

    /// What a reference is replied.
    fn reply(&self, image: &Image, input: &[u8], reference: Reference) -> u64
        ensures { result ≡ reply_of reference (byte_of image.now self.now) (input_at input.now self.now.gets) }
    {
        let address = reference.address;
        match reference.kind {
            RefKind::Read => self.value(image, address, reference.count.min(8)),
            RefKind::Add(_) => self.value(image, address, 2),
            RefKind::SetBit(_) | RefKind::ClearBit(_) => u64::from(self.byte(image, address)),
            RefKind::Write(_) | RefKind::Put(_) => 0,
            RefKind::Get => input_byte(input, self.gets),
        }
    }

    fn store_byte(&mut self, address: u32, value: u8) -> Result<(), AllocError>
        ensures bytes { OnOk result ((image : ImageValue) → byte_of image self.new ≡ with_byte (byte_of image self.old) address value) }
        ensures gets { OnOk result (self.new.gets ≡ self.old.gets) }
        ensures output { OnOk result (self.new.output.items ≡ self.old.output.items) }
    {
        self.written.insert(address, value)?;
        Ok(())
    }

    /// Stores the lowest bytes of a number.
    fn store(&mut self, address: u32, count: u8, value: u64) -> Result<(), AllocError>
        ensures bytes { OnOk result ((image : ImageValue) → byte_of image self.new ≡ with_value (byte_of image self.old) address count value) }
        ensures gets { OnOk result (self.new.gets ≡ self.old.gets) }
        ensures output { OnOk result (self.new.output.items ≡ self.old.output.items) }
    {
        let mut rest = value;
        for place in 0..count {
            self.store_byte(address.wrapping_add(u32::from(place)), (rest % 256) as u8)?;
            rest /= 256;
        }
        Ok(())
    }

    fn add_word(&mut self, image: &Image, address: u32, value: u16) -> Result<(), AllocError>
        ensures bytes { OnOk result (byte_of image.now self.new ≡ with_value (byte_of image.now self.old) address 2 ((value_at (byte_of image.now self.old) address 2 + value) % 2 ^ 16)) }
        ensures gets { OnOk result (self.new.gets ≡ self.old.gets) }
        ensures output { OnOk result (self.new.output.items ≡ self.old.output.items) }
    {
        let word = self.value(image, address, 2) as u16;
        self.store(address, 2, u64::from(word.wrapping_add(value)))?;
        Ok(())
    }

    fn set_bit(&mut self, image: &Image, address: u32, bit: u8) -> Result<(), AllocError>
        ensures bytes { OnOk result (byte_of image.now self.new ≡ with_byte (byte_of image.now self.old) (address % 2 ^ 32) (bit_or (byte_of image.now self.old (address % 2 ^ 32)) (2 ^ (bit % 8)))) }
        ensures gets { OnOk result (self.new.gets ≡ self.old.gets) }
        ensures output { OnOk result (self.new.output.items ≡ self.old.output.items) }
    {
        let byte = self.byte(image, address);
        self.store_byte(address, byte | 1 << (bit % 8))?;
        Ok(())
    }

    fn clear_bit(&mut self, image: &Image, address: u32, bit: u8) -> Result<(), AllocError>
        ensures bytes { OnOk result (byte_of image.now self.new ≡ with_byte (byte_of image.now self.old) (address % 2 ^ 32) (bit_and (byte_of image.now self.old (address % 2 ^ 32)) (255 - 2 ^ (bit % 8)))) }
        ensures gets { OnOk result (self.new.gets ≡ self.old.gets) }
        ensures output { OnOk result (self.new.output.items ≡ self.old.output.items) }
    {
        let byte = self.byte(image, address);
        self.store_byte(address, byte & !(1 << (bit % 8)))?;
        Ok(())
    }

    fn change(&mut self, image: &Image, reference: Reference) -> Result<(), AllocError>
        requires { self.old.gets < 2 ^ 63 }
        ensures bytes { OnOk result (byte_of image.now self.new ≡ changed reference (byte_of image.now self.old)) }
        ensures gets { OnOk result (self.new.gets ≡ gets_by reference.kind self.old.gets) }
        ensures output { OnOk result (self.new.output.items ≡ put_by reference.kind self.old.output.items) }
    {
        let address = reference.address;
        match reference.kind {
            RefKind::Read => {}
            RefKind::Write(value) => self.store(address, reference.count, value)?,
            RefKind::Add(value) => self.add_word(image, address, value)?,
            RefKind::SetBit(bit) => self.set_bit(image, address, bit)?,
            RefKind::ClearBit(bit) => self.clear_bit(image, address, bit)?,
            RefKind::Put(byte) => self.output.push(byte)?,
            RefKind::Get => self.gets += 1,
        }
        Ok(())
    }

    /// Makes a reference, and gives its reply.
    pub(crate) fn make(
        &mut self,
        image: &Image,
        input: &[u8],
        reference: Reference,
    ) -> Result<u64, AllocError>
        requires { self.old.gets < 2 ^ 63 }
        ensures reply { IfOk result (λ reply. reply ≡ reply_of reference (byte_of image.now self.old) (input_at input.now self.old.gets)) }
        ensures bytes { OnOk result (byte_of image.now self.new ≡ changed reference (byte_of image.now self.old)) }
        ensures gets { OnOk result (self.new.gets ≡ gets_by reference.kind self.old.gets) }
        ensures output { OnOk result (self.new.output.items ≡ put_by reference.kind self.old.output.items) }
    {
        let reply = self.reply(image, input, reference);
        self.change(image, reference)?;
        Ok(reply)
    }
}

/// The input byte of that number, and minus 1 behind the last.
fn input_byte(input: &[u8], number: usize) -> u64
    ensures { result ≡ input_at input.now number }
{
    if number < input.len() {
        u64::from(input[number])
    } else {
        0xffff_ffff
    }
}
