// The bit reader: hands out the fields of a row of bytes one after another, each with its place.
ghost use Rattle.std.specs.Prelude.{◌≡◌, ◌+◌, ◌*◌, ◌^◌, ◌<◌, true, length, slice_index};
ghost use Rattle.sheet.specs.Bits.{bits_of, field};
ghost use Rattle.sheet.specs.Fields.{bits_there, bits_left, next_field, next_position, skip_position};

// A field, and the bit position where it begins.
#[derive(Clone, Copy, PartialEq, Eq, Debug)]
pub struct Field {
    pub value: u32,
    pub position: u32,
}

// Reads a caller's bytes from the most significant bit of the first on; `position` counts the bits read.
// It keeps all the bytes and a position in bits, since a field may begin within a byte and is handed out with its place.
#[derive(Drop)]
pub struct BitReader<'a> {
    bytes: &'a [u8],
    position: u32,
}

impl<'a> BitReader<'a> {
    // A reader at the first bit.
    pub fn new(bytes: &'a [u8]) -> BitReader<'a>
        ensures bytes { result.bytes.now ≡ bytes.now }
        ensures position { result.position ≡ 0 }
    {
        BitReader { bytes, position: 0 }
    }

    // Whether so many bits are there from the position on. Added in 64 bits, where the sum always fits: with a sum that is
    // checked in 32 bits a sheet takes a quarter longer to write and read.
    fn has(&self, width: u32) -> bool
        ensures { result ≡ bits_there self.now.bytes.now self.now.position width }
    {
        let end = u64::from(self.position) + u64::from(width);
        end < 1 << 32 && end.div_ceil(8) <= self.bytes.len() as u64
    }

    // The next bit.
    fn bit(&mut self) -> u32
        requires there { self.old.position < 8 * length self.old.bytes.now }
        requires in_range { self.old.position + 1 < 2 ^ 32 }
        ensures value { result ≡ slice_index (bits_of self.old.bytes.now) self.old.position }
        ensures position { self.new.position ≡ self.old.position + 1 }
        ensures bytes { self.new.bytes ≡ self.old.bytes }
    {
        let byte = self.bytes[(self.position / 8) as usize];
        let shift = 7 - self.position % 8;
        self.position += 1;
        u32::from((byte >> shift) & 1)
    }

    // The number in the next bits, where they are there.
    fn number(&mut self, width: u32) -> u32
        requires { bits_left self.old.bytes.now self.old.position width ≡ true }
        ensures value { result ≡ field self.old.bytes.now self.old.position width }
        ensures position { self.new.position ≡ self.old.position + width }
        ensures bytes { self.new.bytes ≡ self.old.bytes }
    {
        let mut value = 0;
        for _i in 0..width {
            value = 2 * value + self.bit();
        }
        value
    }

    // The next field of a width, or none, and nothing read, where the bytes hold fewer bits or the width is over 32.
    pub fn field(&mut self, width: u32) -> Option<Field>
        ensures value { result ≡ next_field self.old.bytes.now self.old.position width }
        ensures position { self.new.position ≡ next_position self.old.bytes.now self.old.position width }
        ensures bytes { self.new.bytes ≡ self.old.bytes }
    {
        if width > 32 || !self.has(width) {
            return None;
        }
        let position = self.position;
        let value = self.number(width);
        Some(Field { value, position })
    }

    // Passes over so many bits, and answers whether they were there; if not, nothing is passed over.
    pub fn skip(&mut self, width: u32) -> bool
        ensures answer { result ≡ bits_there self.old.bytes.now self.old.position width }
        ensures position { self.new.position ≡ skip_position self.old.bytes.now self.old.position width }
        ensures bytes { self.new.bytes ≡ self.old.bytes }
    {
        let there = self.has(width);
        if there {
            self.position += width;
        }
        there
    }
}
