// What a byte does to a mode, in one go: outside Hunt it is held, or it ends a frame that is judged, and the bits after it are held.
ghost use Rattle.std.specs.Prelude.{◌≡◌, true, ◌+◌, ◌^◌, ◌<◌};
ghost use Rattle.lane_rules.specs.Line.{bits_lsb_first};
ghost use Rattle.lane_rules.specs.Receiver.{no_bits, part_admitted};
ghost use Rattle.lane_rules.specs.Collecting.{held_part};
ghost use Rattle.lane_rules.specs.Feeding.{run_of};
ghost use Rattle.lane_modes.specs.PrivateCalls.{Gives, with_byte, byte_collected, is_mixed};

use crate::admission::Admitted;
use crate::collecting::{held_part, hold, hunt};
use crate::judging::quiet;
use lane_rules::{Judged, Mode, Partial};

// Whether bits 16 to 24 are neither all zeros nor all ones, as they would be if one of the next 8 bits ended two alignment frames.
#[tactic(auto, unfolding(crate::specs::PrivateCalls::is_mixed))]
fn is_mixed(bits: u32) -> bool
    ensures { result ≡ is_mixed bits }
{
    let middle = bits / 0x1_0000 % 512;
    (middle != 0) & (middle != 511)
}

impl Admitted {
    // Bits that make no frame, taken one by one in Hunt; a mode that Hunt leads to holds the rest. Kept apart from `go_on`, which has two
    // callers: so outside Hunt no loop is entered and the mode stays in registers. With both in one a line of alignment frames takes 2.4
    // times as long.
    #[inline(never)]
    fn hunt_on(self, bits: Partial) -> Mode
        requires no_bits_held { held_part self.mode ≡ no_bits }
        requires bits_value { part_admitted bits ≡ true }
        ensures { result ≡ (run_of self.mode (bits_lsb_first bits.count bits.bits)).mode }
    {
        let mut mode = self.mode;
        for taken in 0..bits.count {
            let rest = bits.bits >> taken;
            let Mode::Hunt { bits: held, count } = mode else {
                return hold(
                    mode,
                    Partial {
                        bits: rest,
                        count: bits.count - taken,
                    },
                );
            };
            mode = hunt(held, count, rest % 2);
        }
        mode
    }

    // Bits that make no frame: Hunt takes them one by one, any other mode holds them.
    #[inline(always)]
    fn go_on(self, bits: Partial) -> Mode
        requires no_bits_held { held_part self.mode ≡ no_bits }
        requires bits_value { part_admitted bits ≡ true }
        ensures { result ≡ (run_of self.mode (bits_lsb_first bits.count bits.bits)).mode }
    {
        let Mode::Hunt { bits: held, count } = self.mode else {
            return hold(self.mode, bits);
        };
        let hunting = Admitted {
            mode: Mode::Hunt { bits: held, count },
        };
        hunting.hunt_on(bits)
    }

    // The bits held with a byte above them.
    fn with_byte(self, byte: u8) -> u32
        ensures value { result ≡ with_byte (held_part self.mode) byte }
        ensures fits { result < 2 ^ ((held_part self.mode).count + 8) }
    {
        let part = held_part(self.mode);
        part.bits + ((byte as u32) << part.count)
    }

    // A byte in a mode that collects frames: it is held, or it ends a frame.
    fn collect_byte(self, byte: u8) -> Judged
        ensures { result ≡ byte_collected self.mode byte }
    {
        let count = held_part(self.mode).count;
        let bits = self.with_byte(byte);
        if count < 8 {
            let part = Partial {
                bits,
                count: count + 8,
            };
            return quiet(hold(self.mode, part));
        }
        let judged = self.judge((bits % 0x1_0000) as u16);
        let next = Admitted { mode: judged.mode };
        let rest = Partial {
            bits: bits / 0x1_0000,
            count: count - 8,
        };
        Judged {
            mode: next.go_on(rest),
            ..judged
        }
    }

    // What a byte does to a mode. In Hunt one that can end no two alignment frames is taken in one go, any other bit by bit.
    pub fn take_byte(self, byte: u8) -> Judged
        ensures { Gives (run_of self.mode (bits_lsb_first 8 byte)) result }
    {
        let Mode::Hunt { bits, count } = self.mode else {
            return self.collect_byte(byte);
        };
        if count == 32 && is_mixed(bits) {
            return quiet(Mode::Hunt {
                bits: bits / 256 + (byte as u32) * 0x100_0000,
                count: 32,
            });
        }
        quiet(self.go_on(Partial {
            bits: byte as u32,
            count: 8,
        }))
    }
}
