//! The draws that decide what a turn does.
ghost use Rattle.std.specs.Prelude.{◌≡◌, ◌+◌, ◌%◌};
ghost use Rattle.generator.specs.Draws.{following, upper, number_after, draw as drawn};
ghost use Rattle.generator.specs.Turns.{turn_from, draws_of};
ghost use Rattle.generator.specs.declared.turns.Turn.TheVariants as turn;

use crate::turns::Turn;

/// Goes on to the following number, and gives its upper half, 0 to 65,535.
#[tactic(auto, unfolding(crate::specs::Draws::following))]
pub fn draw(number: &mut u32) -> u32
    ensures following { number.new ≡ following number.old }
    ensures value { result ≡ upper number.new }
{
    let next = (u64::from(*number) * 1_664_525 + 1_013_904_223) % 0x1_0000_0000;
    *number = next as u32;
    *number / 65_536
}

// A postage of 1 to 10 mills.
fn draw_postage(number: &mut u32) -> u32
    ensures following { number.new ≡ following number.old }
    ensures value { result ≡ 1 + upper number.new % 10 }
{
    1 + draw(number) % 10
}

// The rest of a turn with a power failure.
fn draw_cut(number: &mut u32) -> Turn
    ensures following { number.new ≡ number_after 4 number.old }
    ensures value { result ≡ turn.Cut (1 + drawn 1 number.old % 10) (drawn 2 number.old % 6) (drawn 3 number.old % 300) (drawn 4 number.old % 256) }
{
    let postage = draw_postage(number);
    let calls = draw(number) % 6;
    let keep = draw(number) % 300;
    let byte = draw(number) % 256;
    Turn::Cut(postage, calls, keep, byte as u8)
}

/// The turn that is drawn from this number.
#[tactic(auto, unfolding(crate::specs::Turns::turn_from))]
pub fn draw_turn(number: &mut u32) -> Turn
    ensures value { result ≡ turn_from number.old }
    ensures following { number.new ≡ number_after (draws_of result) number.old }
{
    match draw(number) % 4 {
        2 => draw_cut(number),
        3 => Turn::Reset,
        _ => Turn::Scan(draw_postage(number)),
    }
}
