// The memory, the input and the output of references.
ghost use Rattle.std.specs.Prelude.{◌≡◌, ◌≤◌, ◌<◌, ◌^◌, ◌+◌, ◌-◌, ◌%◌, bit_and, bit_or, ℕ, [], length, position, IfOk, OnOk};
ghost use Rattle.image_file.specs.Memory.{byte_in};
ghost use Rattle.image_file.specs.Whole.{IsWhole};
ghost use Rattle.vax_form.specs.Made.{input_at};
ghost use Rattle.stored_runs.specs.Memory.{IsRegion};
ghost use Rattle.vax_form.specs.References.{value_at, with_byte, with_value, reply_of, changed};

use image_file::{Image, Section};
use std::alloc::{AllocError, Global};
use vax_form::{PAGE_SIZE, RefKind, Reference};

/// Bytes at addresses that follow one another.
#[derive(Drop)]
pub(crate) struct Region {
    start: u32,
    bytes: Vec<u8>,
}

impl Region {
    ghost use Rattle.stored_runs.specs.Memory.{has_address};

    fn has(&self, address: u32) -> bool
        ensures { result ≡ has_address address self.now }
    {
        self.start <= address && ((address - self.start) as usize) < self.bytes.len()
    }
}

/// The bytes of the image's pages, a region for each section; how many bytes of the input were taken; and the bytes that were
/// put.
#[derive(Drop)]
pub(crate) struct Memory {
    regions: Vec<Region>,
    taken: usize,
    output: Vec<u8>,
}

impl Memory {
    ghost use Rattle.stored_runs.specs.Memory.{byte_of, has_address, put_by, taken_by};
    ghost use Rattle.vax_form.specs.declared.state.RefKind.TheVariants.{Get};

    /// The memory before any reference.
    pub(crate) fn new(alloc: Global, image: &Image) -> Result<Memory, AllocError>
        requires whole { IsWhole image.now }
        ensures bytes { IfOk result (λ memory. byte_of memory ≡ byte_in image.now) }
        ensures taken { IfOk result (λ memory. memory.taken ≡ 0) }
        ensures output { IfOk result (λ memory. memory.output.items ≡ []) }
    {
        let mut regions = Vec::new(alloc);
        for section in &image.sections {
            regions.push(region_of(alloc, section)?)?;
        }
        Ok(Memory {
            regions,
            taken: 0,
            output: Vec::new(alloc),
        })
    }

    /// The place of the region that has an address.
    fn place(&self, address: u32) -> Option<usize>
        ensures { result ≡ position (has_address address) self.now.regions.items }
    {
        self.regions.iter().position(|region| region.has(address))
    }

    fn byte(&self, address: u32) -> u8
        ensures { result ≡ byte_of self.now address }
    {
        match self.place(address) {
            Some(place) => {
                let region = &self.regions[place];
                region.bytes[(address - region.start) as usize]
            }
            None => 0,
        }
    }

    /// The number that up to eight bytes spell.
    fn value(&self, address: u32, count: u8) -> u64
        requires { count ≤ 8 }
        ensures value { result ≡ value_at (byte_of self.now) address count }
        ensures small { result < 256 ^ count }
    {
        let mut value = 0;
        for read in 0..count {
            let place = count - 1 - read;
            let byte = self.byte(address.wrapping_add(u32::from(place)));
            value = 256 * value + u64::from(byte);
        }
        value
    }

    /// What a reference is replied.
    fn reply(&self, input: &[u8], reference: Reference) -> u64
        ensures { result ≡ reply_of reference (byte_of self.now) (input_at input.now self.now.taken) }
    {
        let address = reference.address;
        match reference.kind {
            RefKind::Read => self.value(address, reference.count.min(8)),
            RefKind::Add(_) => self.value(address, 2),
            RefKind::SetBit(_) | RefKind::ClearBit(_) => u64::from(self.byte(address)),
            RefKind::Write(_) | RefKind::Put(_) => 0,
            RefKind::Get => input_byte(input, self.taken),
        }
    }

    // Instructions write in the image's pages alone. A byte outside of them would get a region of its own.
    fn store_byte(&mut self, alloc: Global, address: u32, value: u8) -> Result<(), AllocError>
        ensures bytes { OnOk result (byte_of self.new ≡ with_byte (byte_of self.old) address value) }
        ensures taken { OnOk result (self.new.taken ≡ self.old.taken) }
        ensures output { OnOk result (self.new.output.items ≡ self.old.output.items) }
    {
        match self.place(address) {
            Some(place) => {
                let region = &mut self.regions[place];
                region.bytes[(address - region.start) as usize] = value;
            }
            None => self.regions.push(Region {
                start: address,
                bytes: Vec::from_slice(alloc, &[value])?,
            })?,
        }
        Ok(())
    }

    /// Stores the lowest bytes of a number.
    fn store(
        &mut self,
        alloc: Global,
        address: u32,
        count: u8,
        value: u64,
    ) -> Result<(), AllocError>
        ensures bytes { OnOk result (byte_of self.new ≡ with_value (byte_of self.old) address count value) }
        ensures taken { OnOk result (self.new.taken ≡ self.old.taken) }
        ensures output { OnOk result (self.new.output.items ≡ self.old.output.items) }
    {
        let mut rest = value;
        for place in 0..count {
            self.store_byte(
                alloc,
                address.wrapping_add(u32::from(place)),
                (rest % 256) as u8,
            )?;
            rest /= 256;
        }
        Ok(())
    }

    fn add_word(&mut self, alloc: Global, address: u32, value: u16) -> Result<(), AllocError>
        ensures bytes { OnOk result (byte_of self.new ≡ with_value (byte_of self.old) address 2 ((value_at (byte_of self.old) address 2 + value) % 2 ^ 16)) }
        ensures taken { OnOk result (self.new.taken ≡ self.old.taken) }
        ensures output { OnOk result (self.new.output.items ≡ self.old.output.items) }
    {
        let word = self.value(address, 2) as u16;
        self.store(alloc, address, 2, u64::from(word.wrapping_add(value)))?;
        Ok(())
    }

    fn set_bit(&mut self, alloc: Global, address: u32, bit: u8) -> Result<(), AllocError>
        ensures bytes { OnOk result (byte_of self.new ≡ with_byte (byte_of self.old) (address % 2 ^ 32) (bit_or (byte_of self.old (address % 2 ^ 32)) (2 ^ (bit % 8)))) }
        ensures taken { OnOk result (self.new.taken ≡ self.old.taken) }
        ensures output { OnOk result (self.new.output.items ≡ self.old.output.items) }
    {
        let byte = self.byte(address);
        self.store_byte(alloc, address, byte | 1 << (bit % 8))?;
        Ok(())
    }

    fn clear_bit(&mut self, alloc: Global, address: u32, bit: u8) -> Result<(), AllocError>
        ensures bytes { OnOk result (byte_of self.new ≡ with_byte (byte_of self.old) (address % 2 ^ 32) (bit_and (byte_of self.old (address % 2 ^ 32)) (255 - 2 ^ (bit % 8)))) }
        ensures taken { OnOk result (self.new.taken ≡ self.old.taken) }
        ensures output { OnOk result (self.new.output.items ≡ self.old.output.items) }
    {
        let byte = self.byte(address);
        self.store_byte(alloc, address, byte & !(1 << (bit % 8)))?;
        Ok(())
    }

    fn take_byte(&mut self, input: &[u8])
        ensures taken { self.new.taken ≡ taken_by (length input.now) Get self.old.taken }
        ensures bytes { byte_of self.new ≡ byte_of self.old }
        ensures output { self.new.output.items ≡ self.old.output.items }
    {
        if self.taken < input.len() {
            self.taken += 1;
        }
    }

    fn change(
        &mut self,
        alloc: Global,
        input: &[u8],
        reference: Reference,
    ) -> Result<(), AllocError>
        ensures bytes { OnOk result (byte_of self.new ≡ changed reference (byte_of self.old)) }
        ensures taken { OnOk result (self.new.taken ≡ taken_by (length input.now) reference.kind self.old.taken) }
        ensures output { OnOk result (self.new.output.items ≡ put_by reference.kind self.old.output.items) }
    {
        let address = reference.address;
        match reference.kind {
            RefKind::Read => {}
            RefKind::Write(value) => self.store(alloc, address, reference.count, value)?,
            RefKind::Add(value) => self.add_word(alloc, address, value)?,
            RefKind::SetBit(bit) => self.set_bit(alloc, address, bit)?,
            RefKind::ClearBit(bit) => self.clear_bit(alloc, address, bit)?,
            RefKind::Put(byte) => self.output.push(byte)?,
            RefKind::Get => self.take_byte(input),
        }
        Ok(())
    }

    /// Makes a reference, and gives its reply.
    pub(crate) fn make(
        &mut self,
        alloc: Global,
        input: &[u8],
        reference: Reference,
    ) -> Result<u64, AllocError>
        ensures reply { IfOk result (λ reply. reply ≡ reply_of reference (byte_of self.old) (input_at input.now self.old.taken)) }
        ensures bytes { OnOk result (byte_of self.new ≡ changed reference (byte_of self.old)) }
        ensures taken { OnOk result (self.new.taken ≡ taken_by (length input.now) reference.kind self.old.taken) }
        ensures output { OnOk result (self.new.output.items ≡ put_by reference.kind self.old.output.items) }
    {
        let reply = self.reply(input, reference);
        self.change(alloc, input, reference)?;
        Ok(reply)
    }

    /// The bytes that were put, oldest first.
    pub(crate) fn output(self) -> Vec<u8>
        ensures { result.items ≡ self.output.items }
    {
        let Memory { output, .. } = self;
        output
    }
}

/// What a section stores, and 0 up to the end of its last page.
fn region_of(alloc: Global, section: &Section) -> Result<Region, AllocError>
    requires { length section.now.stored ≤ section.now.size }
    ensures { IfOk result (λ region. IsRegion section.now region) }
{
    let count = section.size.div_ceil(PAGE_SIZE);
    let mut bytes = Vec::from_slice(alloc, &section.stored)?;
    bytes.resize(PAGE_SIZE as usize * count as usize, 0)?;
    Ok(Region {
        start: section.start,
        bytes,
    })
}

/// The input byte of that number, and minus 1 behind the last.
fn input_byte(input: &[u8], number: usize) -> u64
    ensures { result ≡ input_at input.now number }
{
    if number < input.len() {
        u64::from(input[number])
    } else {
        0xffff_ffff
    }
}
