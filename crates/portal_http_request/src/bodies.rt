//! Reads the commands in the bodies of requests.
ghost use Rattle.std.specs.Prelude.{◌≡◌, ◌⊎◌, Err, IfOk};
ghost use Rattle.portal_model.specs.Verdict.{IsWellFormed};
ghost use Rattle.portal_model.specs.declared.command.Command.TheVariants.{
  Load,
  Sell,
  Redeem,
  Report,
  Refund,
  Close,
};
ghost use Rattle.portal_files.specs.PlansFile.{IsPlansFile};
ghost use Rattle.portal_json.specs.Orders.{CodeOrder, Exactly, IsCloseOrder, IsReportOrder};
ghost use Rattle.portal_http_request.specs.Bodies.{Gives, GivesCommand};

use portal_files::{FileFault, read_plans};
use portal_json::{read_close, read_redeem, read_refund, read_report, read_sale};
use portal_model::command::Command;
use portal_model::name::Device;
use portal_model::refusal::Refusal;
use std::alloc::Global;

/// Reads the plans in a body, and makes the command that loads them.
///
/// Refusals: `BadPlans` if the body is not a plans file; `NoMemory`.
pub fn load_command(alloc: Global, body: &[u8]) -> Result<Command, Refusal>
    ensures orders { (result ≡ Err Refusal.NoMemory)
        ⊎ Gives (IsPlansFile body.now) Load Refusal.BadPlans result }
    ensures well_formed { IfOk result IsWellFormed }
{
    match read_plans(alloc, body) {
        Ok(plans) => Ok(Command::Load { plans }),
        Err(FileFault::Bad) => Err(Refusal::BadPlans),
        Err(FileFault::Memory) => Err(Refusal::NoMemory),
    }
}

/// Reads the code in a body, and makes the command that redeems it for a device.
///
/// Refusals: `BadRequest` if the body has no text under `code`; `BadCode` if the text is not a code;
/// `NoMemory`.
pub fn redeem_command(alloc: Global, device: Device, body: &[u8]) -> Result<Command, Refusal>
    ensures orders { (result ≡ Err Refusal.NoMemory)
        ⊎ GivesCommand CodeOrder (Redeem device) body.now result }
    ensures well_formed { IfOk result IsWellFormed }
{
    let code = read_redeem(alloc, body)?;
    Ok(Command::Redeem { device, code })
}

/// Reads the code in a body, and makes the command that sells its voucher. Refusals: as for
/// `redeem_command`.
pub fn sell_command(alloc: Global, body: &[u8]) -> Result<Command, Refusal>
    ensures orders { (result ≡ Err Refusal.NoMemory) ⊎ GivesCommand CodeOrder Sell body.now result }
    ensures well_formed { IfOk result IsWellFormed }
{
    let code = read_sale(alloc, body)?;
    Ok(Command::Sell { code })
}

/// Reads the code in a body, and makes the command that refunds its voucher. Refusals: as for
/// `redeem_command`.
pub fn refund_command(alloc: Global, body: &[u8]) -> Result<Command, Refusal>
    ensures orders { (result ≡ Err Refusal.NoMemory) ⊎ GivesCommand CodeOrder Refund body.now result }
    ensures well_formed { IfOk result IsWellFormed }
{
    let code = read_refund(alloc, body)?;
    Ok(Command::Refund { code })
}

/// Reads the number of a session in a body, and makes the command that closes the session.
///
/// Refusals: `BadRequest`; `NoMemory`.
pub fn close_command(alloc: Global, body: &[u8]) -> Result<Command, Refusal>
    ensures orders { (result ≡ Err Refusal.NoMemory)
        ⊎ GivesCommand (λ value. Exactly (IsCloseOrder value)) Close body.now result }
    ensures well_formed { IfOk result IsWellFormed }
{
    let session = read_close(alloc, body)?;
    Ok(Command::Close { session })
}

/// Reads the gateway's report in a body, and makes the command that records it.
///
/// Refusals: `BadRequest`; `NoMemory`.
pub fn report_command(alloc: Global, body: &[u8]) -> Result<Command, Refusal>
    ensures orders { (result ≡ Err Refusal.NoMemory)
        ⊎ GivesCommand (λ value. Exactly (IsReportOrder value)) (λ order. Report order.session order.bytes)
        body.now result }
    ensures well_formed { IfOk result IsWellFormed }
{
    let order = read_report(alloc, body)?;
    Ok(Command::Report {
        session: order.session,
        bytes: order.bytes,
    })
}
