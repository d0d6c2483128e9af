//! The text of an entry of the register.
ghost use Rattle.rp_reports.specs.Text.{end_text, layer_text, origins_text};
ghost use Rattle.rp_text.specs.Fronts.{Writes};

use crate::items::{WriteText, write_operand, write_operands};
use crate::pieces::append;
use rp_history::LotLine;
use rp_lists::{Name, Names};
use std::alloc::AllocError;

/// Appends ` ended` and the line at which a lot ended, or ` live` if it has not ended.
fn write_end(ended: Option<u32>, out: &mut Vec<u8>) -> Result<(), AllocError>
    ensures { Writes result out.old.items out.new.items (end_text ended) }
{
    match ended {
        Some(line) => write_operand(b" ended", &line, out),
        None => append(b" live", out),
    }
}

/// Appends ` layer` and the layer of a lot. Appends nothing for the layer `base`, with which a script begins.
fn write_layer(layer: &Name, out: &mut Vec<u8>) -> Result<(), AllocError>
    ensures { Writes result out.old.items out.new.items (layer_text layer.now) }
{
    if layer.bytes() == b"base".as_slice() {
        return Ok(());
    }
    write_operand(b" layer", layer, out)
}

/// Appends ` from` and the ids of the lots that a lot was made from. Appends nothing if there are none.
fn write_origins(origins: &Names, out: &mut Vec<u8>) -> Result<(), AllocError>
    ensures { Writes result out.old.items out.new.items (origins_text origins.now.items) }
{
    match origins.items() {
        [] => Ok(()),
        ids => write_operands(b" from", ids, out),
    }
}

impl WriteText for LotLine {
    ghost use Rattle.rp_reports.specs.Text.{lot_text};
    ghost use Rattle.rp_model.specs.commands.Verdict.{entry_of};
    ghost use Rattle.rp_history.specs.Lots.{lot_of};

    ghost text = { λ l. lot_text (entry_of (lot_of l)) };

    fn write_text(&self, out: &mut Vec<u8>) -> Result<(), AllocError> {
        write_operand(b"lot", &self.id, out)?;
        write_operand(b" born", &self.born, out)?;
        write_end(self.ended, out)?;
        write_layer(&self.layer, out)?;
        write_origins(&self.origins, out)
    }
}
