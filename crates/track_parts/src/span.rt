//! The digits that letters with a part have on a track.

ghost use Rattle.std.specs.Prelude.{◌≡◌, length};
ghost use Rattle.track_parts.specs.Spans.{IsSpanOf};

/// So many digits from one on.
#[derive(Clone, Copy)]
pub struct Span {
    pub from: u32,
    pub count: u32,
}

/// The digits on a track of a size: only that of the part, if the track is at one of the part's places, else all. The
/// part has these digits at its places.
pub fn span_of(places: &[u32], digits: &[u32], track: u32, size: u32) -> Span
    requires { length digits.now ≡ length places.now }
    ensures { IsSpanOf places.now digits.now track size result }
{
    for (index, place) in places.iter().enumerate() {
        if *place == track {
            return Span {
                from: digits[index],
                count: 1,
            };
        }
    }
    Span {
        from: 0,
        count: size,
    }
}
