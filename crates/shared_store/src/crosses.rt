//! What goes from one thread to another.
ghost use Rattle.std.specs.Thread.{IsSend, IsSync};
ghost use Rattle.store_core.specs.contracts.store.Core as core_type;
ghost use Rattle.shared_store.specs.contracts.shared.SharedPort as shared_type;
ghost use Rattle.shared_store.specs.contracts.ticket.PortTicket as ticket_type;

use crate::shared::SharedPort;
use crate::ticket::PortTicket;
use disk_model::Device;
use store_core::Core;
use store_state::LookPort;

/// A ticket may go to another thread where its port may.
pub fn a_ticket_crosses<Q: LookPort>(_ticket: &PortTicket<Q>)
    ensures { IsSend Q.row → IsSend (ticket_type.the_row Q.row Q.LookPort.own) }
{}

/// Threads may share a reference to a shared port where the port may go from one to another.
pub fn a_shared_port_is_shared<Q: LookPort>(_shared: &SharedPort<Q>)
    ensures { IsSend Q.row → IsSync (shared_type.the_row Q.row Q.LookPort.own) }
{}

/// Where a disk may go to another thread, a ticket of a store on it may, and threads may share a reference to that store.
pub fn a_shared_core_crosses<D: Device>(_core: &Core<D>)
    ensures ticket { IsSend D.row
        → IsSend (ticket_type.the_row (core_type.the_row D.row) ⟦<Core<D> as LookPort>⟧) }
    ensures shared { IsSend D.row
        → IsSync (shared_type.the_row (core_type.the_row D.row) ⟦<Core<D> as LookPort>⟧) }
{}
