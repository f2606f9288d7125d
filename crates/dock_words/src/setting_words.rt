// Settings and the buffers of opening, in one row of 9 words. Here, and for states and blockers, functions tell what a row stands for:
// `From` could only stand in the crate that has the type.
ghost use Rattle.std.specs.Prelude.{◌≡◌};
ghost use Rattle.dock_words.specs.View.{settings_of, buffers_of, settings_words};

use crate::rows::SettingRow;
use arithmetic::settings::{Alignments, Buffers, Lent, Settings};

// A slot of the dock, with what its job needs of the rest: the settings and the buffers. That the slot is below 8 is asked where it
// indexes, and is no invariant: a begin makes a place for slot 8 too, where none is free.
#[derive(Clone, Copy)]
pub(crate) struct Place {
    pub slot: usize,
    pub settings: Settings,
    pub buffers: Buffers,
}

// The settings in the first 5 words: those that the dock was opened with.
pub fn settings_of(settings: &SettingRow) -> Settings
    ensures { result ≡ settings_of settings.now }
{
    Settings {
        align: Alignments {
            mem: settings[0],
            req: settings[1],
            zero: settings[2],
            discard: settings[3],
        },
        bounce: settings[4],
    }
}

// The buffers of opening in the other 4.
pub(crate) fn buffers_of(settings: &SettingRow) -> Buffers
    ensures { result ≡ buffers_of settings.now }
{
    Buffers {
        data: Lent {
            address: settings[5],
            length: settings[6],
        },
        scratch: Lent {
            address: settings[7],
            length: settings[8],
        },
    }
}

// Write both, over the whole row.
pub(crate) fn put_settings(settings: &mut SettingRow, s: Settings, b: Buffers)
    ensures { settings.new ≡ settings_words s b }
{
    *settings = [
        s.align.mem,
        s.align.req,
        s.align.zero,
        s.align.discard,
        s.bounce,
        b.data.address,
        b.data.length,
        b.scratch.address,
        b.scratch.length,
    ];
}
