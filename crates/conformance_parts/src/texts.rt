//! Models of texts, and texts of models that several layers are called on.

ghost use Rattle.std.specs.Prelude.{IfSome};
ghost use Rattle.cca_base.specs.Prelude.{IsComplete};

use cca_base::Model;
use model_syntax::ModelReader;
use std::alloc::Global;

/// Takes the line, unless it is refused.
fn takes(reader: &mut ModelReader, line: &str) -> bool {
    reader.line(line.as_bytes()).is_ok()
}

/// A reader that has read the model of this text.
pub fn reader_of(alloc: Global, text: &str) -> Option<ModelReader> {
    let mut reader = ModelReader::open(alloc).ok()?;
    for line in text.lines() {
        if !takes(&mut reader, line) {
            return None;
        }
    }
    Some(reader)
}

/// The model of this text.
pub fn model_of(alloc: Global, text: &str) -> Option<Model>
    ensures { IfSome result (λ m. IsComplete m) }
{
    let reader = reader_of(alloc, text)?;
    Some(reader.finish())
}

/// The model of this text with one more line.
pub fn model_with(alloc: Global, text: &str, line: &str) -> Option<Model>
    ensures { IfSome result (λ m. IsComplete m) }
{
    let mut reader = reader_of(alloc, text)?;
    if !takes(&mut reader, line) {
        return None;
    }
    Some(reader.finish())
}

/// A valve that sticks, with the driver that it needs.
pub const STICKING_VALVE: &str = "titan 1
component drv = off, on start off
component valve = closed, open, stuck start closed
var flow = none, some sensed
rule flow = some iff valve = open
move drv off -> on by drv_on when true
move drv on -> off by drv_off when true
move valve closed -> open by v_open when drv = on
move valve open -> closed by v_close when drv = on
repair valve stuck -> closed by v_reset when drv = on
fail valve closed -> stuck cost 4
fail valve open -> stuck cost 6";

/// A unit that is power-cycled, and reset while its driver is on.
pub const HUNG_UNIT: &str = "titan 2
component dev = ok, latched, hung start hung
component drv = off, on start off
move drv off -> on by drv_on when true
move drv on -> off by drv_off when true
repair dev hung -> latched by d_power when true
repair dev latched -> ok by d_reset when drv = on";

/// The same unit with a driver that can't be switched on: of its two repairs the second isn't open.
pub const LATCHED_UNIT: &str = "titan 2
component dev = ok, latched, hung start hung
component drv = off, on start off
move drv on -> off by drv_off when true
repair dev hung -> latched by d_power when true
repair dev latched -> ok by d_reset when drv = on";

/// A driver, a valve, and a flow that is there where the valve is open.
pub const VALVE: &str = "titan 1
component drv = off, on start off
component valve = closed, open, stuck start closed
var flow = none, some sensed
rule flow = some iff valve = open";
