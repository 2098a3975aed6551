//! What a position stands for in a frame.
//!
//! `find` follows the links of the frame and compares no names. An argument of a rule is found as
//! its code with the frame of the caller, in which it is evaluated at each use. `result` is found
//! as the number of its location, which is read in the view of the use (as `undef` if the location
//! is stray).
ghost use Rattle.std.specs.Prelude.{◌≡◌, ◌≤◌};
ghost use Rattle.asm_state.specs.Signature.{Shape};
ghost use Rattle.asm_code.specs.code.Readings.{at_position};
ghost use Rattle.asm_eval.specs.code.FrameBindings.{binding_reading, binding_load, IsSoundBinding};
ghost use Rattle.asm_eval.specs.code.Frames.{AllSound, IsOptionalLocation, IsSoundFrame, by_name, frame_size, readings_of, terms_load, terms_readings};

use crate::frame::Frame;
use asm_code::code::Code;
use asm_state::word::Word;

/// What a position stands for.
#[derive(Clone, Copy)]
pub(crate) enum FrameBinding<'a> {
    Nothing,
    /// A value.
    Known(Word),
    /// The location with this number.
    Located(usize),
    /// A code, with the frame that it belongs to.
    ByName(&'a Code, &'a Frame<'a>),
}

/// What the position stands for in the frame.
#[inline(always)]
pub(crate) fn find<'a>(frame: &'a Frame<'a>, position: usize) -> FrameBinding<'a>
    ensures reading { (shape : Shape) → binding_reading shape result ≡ at_position (readings_of shape frame.now) position }
    ensures sound { (shape : Shape) → IsSoundFrame shape frame.now → IsSoundBinding shape result }
    ensures load { binding_load result ≤ frame_size frame.now }
{
    let mut rest = frame;
    let mut left = position;
    loop {
        match rest {
            Frame::One { value, outer } => {
                if left == 0 {
                    return FrameBinding::Known(Word::of_code(*value));
                }
                left -= 1;
                rest = outer;
            }
            Frame::Values { values, outer } => {
                if let Some(value) = values.get(left) {
                    return FrameBinding::Known(*value);
                }
                left -= values.len();
                rest = outer;
            }
            Frame::Terms {
                answer,
                codes,
                caller,
            } => return in_terms(*answer, codes, caller, left),
            Frame::Empty => return FrameBinding::Nothing,
        }
    }
}

/// What the position stands for in the body of a rule.
fn in_terms<'a>(
    answer: Option<usize>,
    codes: &'a [Code],
    caller: &'a Frame<'a>,
    position: usize,
) -> FrameBinding<'a>
    ensures reading { (shape : Shape) → binding_reading shape result ≡ at_position (terms_readings shape answer codes.now caller.now) position }
    ensures sound { (shape : Shape) → IsOptionalLocation shape answer → AllSound shape codes.now → IsSoundFrame shape caller.now → IsSoundBinding shape result }
    ensures load { binding_load result ≤ terms_load codes.now caller.now }
{
    let Some(n) = answer else {
        return named_at(codes, caller, position);
    };
    if position == 0 {
        return FrameBinding::Located(n);
    }
    named_at(codes, caller, position - 1)
}

/// The code at a position, with the frame that it belongs to.
#[inline(always)]
fn named_at<'a>(codes: &'a [Code], caller: &'a Frame<'a>, position: usize) -> FrameBinding<'a>
    ensures reading { (shape : Shape) → binding_reading shape result ≡ at_position (by_name shape (readings_of shape caller.now) codes.now) position }
    ensures sound { (shape : Shape) → AllSound shape codes.now → IsSoundFrame shape caller.now → IsSoundBinding shape result }
    ensures load { binding_load result ≤ terms_load codes.now caller.now }
{
    match codes.get(position) {
        None => FrameBinding::Nothing,
        Some(code) => FrameBinding::ByName(code, caller),
    }
}
