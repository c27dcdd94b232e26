// The scrambler: its states and the step from one to the next.
ghost use Rattle.std.specs.Prelude.{◌≡◌};
ghost use Rattle.frame.specs.Scrambler.{is_state, next_state, next_answer};

use refusal::Refusal;

// Whether a number is a state: 1 to 0x1FFFF.
pub fn is_state(state: u32) -> bool
    ensures { result ≡ is_state state }
{
    // Kept as two comparisons: a range's `contains` leaves a proof to facts of which std has no lemma, and `matches!` is no plainer.
    1 <= state && state <= 0x1FFFF
}

// The next state. Of any number the 17 lowest bits count.
pub fn advance(state: u32) -> u32
    ensures { result ≡ next_state state }
{
    let mixed = (state % 0x4000) ^ (state / 8 % 0x4000);
    mixed * 8 + (state / 0x4000 % 8)
}

// The state after the given one. Refusal 3: no state.
pub fn next(state: u32) -> Result<u32, Refusal>
    ensures { result ≡ next_answer state }
{
    if !is_state(state) {
        return Err(Refusal::Record);
    }
    Ok(advance(state))
}
