//! The generator's state, and what one draw gives.

ghost use Rattle.std.specs.Prelude.{◌≡◌};
ghost use Rattle.lf_gen.specs.Draws.{next_state, draw as drawn};

const MULTIPLIER: u64 = 6_364_136_223_846_793_005;

const INCREMENT: u64 = 1_442_695_040_888_963_407;

/// Goes on to the next state, and gives its upper half.
pub(crate) fn draw(state: &mut u64) -> u32
    ensures state { state.new ≡ next_state state.old }
    ensures drawn { result ≡ drawn state.old }
{
    *state = state.wrapping_mul(MULTIPLIER).wrapping_add(INCREMENT);
    (*state >> 32) as u32
}
