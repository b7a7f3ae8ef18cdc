// Sheets as networks.
ghost use Rattle.sheet.specs.Sheets.{sheet_meaning};
ghost use Rattle.sheet.specs.Layout.{kept_bytes};
ghost use Rattle.sheet.specs.Sound.{sound, sound_formed};

use super::sheet::Sheet;
use super::words::ArcWord;
use network::{Arc, Network};

impl Network for Sheet {
    ghost meaning = { sheet_meaning };

    ghost formed = { λ self. sound_formed (kept_bytes self.arcs self.bytes) (sound (kept_bytes self.arcs self.bytes) self.sound) };

    fn sites(&self) -> u8 {
        self.sites
    }

    fn arcs(&self) -> u16 {
        self.arcs
    }

    fn arc(&self, number: u32) -> Option<Arc> {
        let (words, _) = self.bytes[2..].as_chunks::<8>();
        let word = words[..usize::from(self.arcs)].get(number as usize)?;
        Some(Arc::from(ArcWord::from_be_bytes(word)))
    }
}
