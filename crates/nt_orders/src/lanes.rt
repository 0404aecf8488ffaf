//! A script as a plan.
ghost use Rattle.std.specs.Prelude.{◌≡◌, map, IfErr, IfOk, Some};
ghost use Rattle.nt_machine.specs.Dispatcher.{state};
ghost use Rattle.nt_plans.specs.Kept.{gates_of, item_of};
ghost use Rattle.nt_plans.specs.Lines.{AreGates};
ghost use Rattle.nt_plans.specs.Gates.{race_of};
ghost use Rattle.nt_orders.specs.Plans.{IsLaidOut};
ghost use Rattle.nt_orders.specs.Reading.{IsPlanFault, lanes_of};
ghost use Rattle.nt_orders.specs.declared.fault.OrdersFault.TheVariants.{Memory};

use crate::fault::OrdersFault;
use nt_core::Core;
use nt_explore::Plan;
use nt_plans::{Gates, Item, Laid, Line, Made, Planned, make_gates, plan_all, race_of};
use nt_script::Session;
use std::alloc::{AllocError, Global};

/// A script as a plan: the dispatcher with all that it creates, and each lane's lines.
#[derive(Drop)]
pub struct Script {
    /// The dispatcher before all calls, and the names.
    pub(crate) session: Session,
    /// By the places of names, the numbers of the objects that they were given to.
    pub(crate) objects: Vec<u32>,
    pub(crate) plan: Plan,
    /// By lane, the lines that the plan's asks stand on.
    pub(crate) lines: Vec<Vec<Line>>,
    /// The lines of no lane, as they stand: those up to the `threads` line, creations, and what says nothing.
    pub(crate) front: Vec<u8>,
    /// The late creations, with their gates and claims.
    pub(crate) late: Vec<Made>,
}

/// A copy of the session's dispatcher.
fn core_of(session: &Session) -> Result<Core, AllocError>
    ensures { IfOk result (λ core. core ≡ session.now.core) }
{
    match session.core().copy() {
        Ok(core) => Ok(core),
        Err(_) => Err(AllocError),
    }
}

/// The session's dispatcher once a gate and a claim are made for each late creation among these lines, and these.
fn with_gates(
    alloc: Global,
    session: &Session,
    items: &[Item],
) -> Result<(Core, Gates), OrdersFault>
    ensures made { IfOk result (λ made. AreGates (state session.now.core) (map item_of items.now) (gates_of made.1) (state made.0)) }
    ensures fault { IfErr result (λ fault. fault ≡ Memory) }
{
    let Ok(mut core) = core_of(session) else {
        return Err(OrdersFault::Memory);
    };
    match make_gates(&mut core, alloc, items) {
        Ok(gates) => Ok((core, gates)),
        Err(_) => Err(OrdersFault::Memory),
    }
}

/// The script of these lines, laid out, with a gate and a claim for each late creation.
pub(crate) fn lay_out(
    alloc: Global,
    session: Session,
    objects: Vec<u32>,
    front: Vec<u8>,
    items: &[Item],
) -> Result<Script, OrdersFault>
    ensures script { IfOk result (λ script. IsLaidOut (state session.core) (map item_of items.now) front.items
        (lanes_of script) (state script.session.core)) }
    ensures fault { IfErr result (IsPlanFault (λ line. race_of (map item_of items.now) ≡ Some line)) }
{
    if let Some(line) = race_of(items) {
        return Err(OrdersFault::Race { line });
    }
    let mut session = session;
    let (core, gates) = with_gates(alloc, &session, items)?;
    match plan_all(alloc, session.core().threads(), &gates, items) {
        Ok(Planned { laid, above }) => {
            let Laid { plan, lines, .. } = laid;
            let _before = session.replace_core(core);
            Ok(Script {
                session,
                objects,
                plan,
                lines,
                front,
                late: above,
            })
        }
        Err(_) => Err(OrdersFault::Memory),
    }
}
