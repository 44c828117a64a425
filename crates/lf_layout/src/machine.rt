//! The machine of a list of places: the memories of each are followed by those of the next.

ghost use Rattle.std.specs.Prelude.{◌≡◌, ◌+◌, ◌<◌, ◌≤◌, Option, IfSome};
ghost use Rattle.lf_core.specs.Domain.{accepts as accepts_text};
ghost use Rattle.lf_layout.specs.Places.{IsPlaced, IsReadableFrom, point_count as point_count_of, shifted as shifted_of, next_point as next_point_of, is_last as is_last_of};
ghost use Rattle.lf_layout.specs.PlaceLaws.{run};

use crate::place::Place;

/// How many points there are; the end is one.
pub fn point_count(places: &[Place]) -> u32
    requires { point_count_of places.now ≤ 300 }
    ensures { result ≡ point_count_of places.now }
{
    match places.split_first() {
        Some((first, rest)) => first.memories() + point_count(rest),
        None => 1,
    }
}

fn shifted(base: u32, point: Option<u32>) -> Option<u32>
    requires base { base ≤ 300 }
    requires point { IfSome point (λ at. at ≤ 1000000) }
    ensures { result ≡ shifted_of base point }
{
    match point {
        Some(at) => Some(base + at),
        None => None,
    }
}

/// The point after a letter.
pub fn next_point(places: &[Place], point: u32, letter: u8) -> Option<u32>
    requires few { point_count_of places.now ≤ 300 }
    requires inside { point < point_count_of places.now }
    ensures exact { result ≡ next_point_of places.now point letter }
    ensures most { IfSome result (λ at. at ≤ 4000 + point_count_of places.now) }
{
    let Some((first, rest)) = places.split_first() else {
        return None;
    };
    let memories = first.memories();
    if point < memories {
        return shifted(memories, first.after(point, letter));
    }
    shifted(memories, next_point(rest, point - memories, letter))
}

/// Whether the point is the end.
pub fn is_last(places: &[Place], point: u32) -> bool
    ensures { result ≡ is_last_of places.now point }
{
    let Some((first, rest)) = places.split_first() else {
        return point == 0;
    };
    let memories = first.memories();
    if point < memories {
        return false;
    }
    is_last(rest, point - memories)
}

/// Whether the places read the letters, one each, from the memory on.
fn reads(places: &[Place], memory: u32, text: &[u8]) -> bool
    requires { IsReadableFrom memory places.now }
    ensures { result ≡ run places.now memory text.now }
{
    let Some((place, places)) = places.split_first() else {
        return memory == 0 && text.is_empty();
    };
    let Some((letter, text)) = text.split_first() else {
        return false;
    };
    match place.after(memory, *letter) {
        Some(after) => reads(places, after, text),
        None => false,
    }
}

/// Whether the letters lead to the end, in one walk along the places.
pub fn accepts(places: &[Place], text: &[u8]) -> bool
    requires { IsPlaced places.now }
    ensures { result ≡ accepts_text (next_point_of places.now) (is_last_of places.now) 0 text.now }
{
    reads(places, 0, text)
}
