//! The commands of the desk.

ghost use Rattle.portal_model.specs.Verdict.{IsTyped};

use crate::lists::{Codes, Plans};
use crate::name::{Device, Id};
use crate::proof::witness;
use portal_codes::Code;

/// A command as a caller sends it.
///
/// It is well formed if a load lists 1 to 500 plans with no id twice, an issue has 1 to 500 codes, and a
/// report has at most 9,223,372,036,854,775,807 bytes.
#[derive(Drop)]
pub enum Command {
    /// Load a list of plans.
    Load { plans: Plans },
    /// Issue a batch of vouchers of a plan, with these codes.
    Issue { batch: Id, plan: Id, codes: Codes },
    /// Sell a voucher.
    Sell { code: Code },
    /// Redeem a voucher for a device.
    Redeem { device: Device, code: Code },
    /// Report the bytes that a session has used so far.
    Report { session: u64, bytes: u64 },
    /// Refund the unused uses of a voucher.
    Refund { code: Code },
    /// Close a session before its end.
    Close { session: u64 },
}

/// Law: every command is typed. Its ids are id texts, its codes are codes, and its device has six octets.
///
/// The function only reads the values whose invariants show it.
pub fn command_is_typed(command: &Command)
    ensures { IsTyped command.now }
{
    match command {
        Command::Load { plans } => {
            witness(plans.as_slice());
        }
        Command::Issue { batch, plan, codes } => {
            witness(batch.text());
            witness(plan.text());
            witness(codes.as_slice());
        }
        Command::Sell { code } | Command::Refund { code } => {
            witness(code.text());
        }
        Command::Redeem { device, code } => {
            witness(device.text());
            witness(code.text());
        }
        Command::Report { .. } | Command::Close { .. } => {}
    }
}
