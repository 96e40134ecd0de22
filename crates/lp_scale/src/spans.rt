// The least and the greatest of some numbers.
ghost use Rattle.std.specs.Prelude.{◌≡◌, pos, negsuc};
ghost use Rattle.lp_scale.specs.Spans.{grown, joined_span, lift, AreBetween};

/// The least and the greatest of some numbers.
#[derive(Clone, Copy)]
pub struct Span {
    /// The least number.
    pub least: i32,
    /// The greatest number.
    pub greatest: i32,
}

/// Extends a span by a number.
pub fn grow(span: Option<Span>, number: i32) -> Option<Span>
    ensures { result ≡ grown span number }
{
    match span {
        None => Some(Span {
            least: number,
            greatest: number,
        }),
        Some(span) => Some(Span {
            least: span.least.min(number),
            greatest: span.greatest.max(number),
        }),
    }
}

/// The span with one number more, if there is one.
pub fn join(span: Option<Span>, number: Option<i32>) -> Option<Span>
    ensures { result ≡ joined_span span number }
{
    match number {
        None => span,
        Some(number) => grow(span, number),
    }
}

/// 33 less the middle of the least and the greatest; 0 where there are none.
pub fn lift(span: Option<Span>) -> i32
    requires { AreBetween (negsuc 1023) (pos 1023) span }
    ensures { result ≡ lift span }
{
    match span {
        None => 0,
        Some(span) => 33 - (span.least + span.greatest).div_euclid(2),
    }
}
