// An arc as one number of 64 bits: its seven fields, the first in the highest bits.
ghost use Rattle.std.specs.Prelude.{◌≡◌, ◌^◌, ◌<◌, ◌≤◌};
ghost use Rattle.sheet.specs.Bits.{number, bits_of};
ghost use Rattle.sheet.specs.Words.{arc_word, word_field, arc_in_word};
ghost use Rattle.sheet.specs.Steps.{word_bytes};

use network::Arc;

// An arc as a number of 64 bits.
#[derive(Clone, Copy)]
pub(super) struct ArcWord(u64);

impl ArcWord {
    // The word that eight bytes stand for, the highest first.
    pub(super) fn from_be_bytes(bytes: &[u8; 8]) -> ArcWord
        ensures { result.0 ≡ number (bits_of bytes.now) }
    {
        ArcWord(u64::from_be_bytes(*bytes))
    }

    // The eight bytes of the word, the highest first.
    pub(super) fn to_be_bytes(self) -> [u8; 8]
        ensures { result ≡ word_bytes self.0 }
    {
        self.0.to_be_bytes()
    }

    // The field of a width that stands `shift` bits above the lowest bit.
    fn field(self, shift: u32, width: u32) -> u16
        requires in_word { shift < 64 }
        requires narrow { width ≤ 16 }
        ensures value { result ≡ word_field self.0 shift width }
        ensures below { result < 2 ^ width }
    {
        ((self.0 >> shift) & ((1 << width) - 1)) as u16
    }
}

impl From<ArcWord> for Arc {
    ghost from_gives = { λ word arc. arc ≡ arc_in_word word.0 };

    fn from(word: ArcWord) -> Arc {
        Arc {
            from: word.field(58, 6) as u8,
            to: word.field(52, 6) as u8,
            weight: word.field(40, 12),
            delay: word.field(28, 12),
            jitter: word.field(18, 10),
            charge: word.field(8, 10),
            capacity: word.field(0, 8) as u8,
        }
    }
}

impl From<Arc> for ArcWord {
    ghost from_gives = { λ arc word. word.0 ≡ arc_word arc };

    // Of each field only the bits that its place in the word has room for.
    fn from(arc: Arc) -> ArcWord {
        let from = u64::from(arc.from % 64);
        let to = from * 64 + u64::from(arc.to % 64);
        let weight = to * 4096 + u64::from(arc.weight % 4096);
        let delay = weight * 4096 + u64::from(arc.delay % 4096);
        let jitter = delay * 1024 + u64::from(arc.jitter % 1024);
        let charge = jitter * 1024 + u64::from(arc.charge % 1024);
        ArcWord(charge * 256 + u64::from(arc.capacity))
    }
}
