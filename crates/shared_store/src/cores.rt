//! A core as a port that threads share.

ghost use Rattle.std.specs.Prelude.{◌≡◌, List, Some};
ghost use Rattle.std.specs.Thread.{IsSend};
ghost use Rattle.store_model.specs.Event.{Event, Reply};
ghost use Rattle.store_model.specs.Step.{Machine};
ghost use Rattle.store_state.specs.Meaning.{Called};
ghost use Rattle.store_core.specs.Cores.{CoreShows, CoreStandsFor};
ghost use Rattle.store_core.specs.contracts.store.Core as core_type;
ghost use Rattle.store_core.specs.declared.store.Core.{Core as core};
ghost use Rattle.store_core.specs.Port.{port_of};
ghost use Rattle.port_history.specs.Entries.{Entry, AreEntries, Legal};
ghost use Rattle.shared_store.specs.Apart.{IsUnshared};
ghost use Rattle.shared_store.specs.Over.{HasCalled, IsTakenBack};
ghost use Rattle.shared_store.specs.Rule.{IsFound};
ghost use Rattle.shared_store.specs.Seats.{Stand, seat_meaning};
ghost use Rattle.shared_store.specs.declared.known.Known.{Known};

use crate::seat::PortSeat;
use crate::shared::SharedPort;
use crate::ticket::PortTicket;
use disk_model::Device;
use store_core::Core;

/// A store that threads share.
pub type Shared<D> = SharedPort<Core<D>>;

/// A right to a seat of it.
pub type Ticket<D> = PortTicket<Core<D>>;

/// A seat of it.
pub type Seat<'a, D, R> = PortSeat<'a, Core<D>, R>;

/// Nobody but its caller uses a core, so it may be shared.
pub fn a_core_is_unshared<D: Device>(core: &Core<D>)
    ensures { IsUnshared (port_of D.Device.own) }
{}

/// The calls that were made on a core are legal from each machine that it stood for, and it then stands for the machine that they
/// leave; and so of the machines that its memory shows, whatever its disk holds.
pub fn entries_of_a_core_are_legal<D: Device>(old: &Core<D>, new: &Core<D>)
    ensures stands { (entries : List Entry)
        → AreEntries (port_of D.Device.own) old.now entries new.now → (m : Machine)
        → CoreStandsFor D.Device.own old.now m
        → (m' : Machine) × CoreStandsFor D.Device.own new.now m'
        × Legal (D.faults old.now.disk) m entries (D.faults new.now.disk) m' }
    ensures shown { (entries : List Entry)
        → AreEntries (port_of D.Device.own) old.now entries new.now → (m : Machine)
        → CoreShows D.Device.own old.now m → (m' : Machine) × CoreShows D.Device.own new.now m'
        × Legal (D.faults old.now.disk) m entries (D.faults new.now.disk) m' }
{}

/// After each call on a seat of a core's store there is one legal history of calls of the store up to it. It begins with what the
/// seat had seen and ends with this call.
pub fn a_call_of_a_seat_is_legal<D: Device>(key: &Core<D>)
    ensures { (v w : Stand (core D)) (event : Event) (reply : Reply)
        → Called (seat_meaning (port_of D.Device.own)) v event reply w
        → v.known.start ≡ Some key.now
        → HasCalled D.Device.own key.now v.known event reply w.known }
{}

/// What `close` gives, where the port is a core: one legal history of calls of the store leads to it, and begins with what the ticket
/// had seen.
pub fn a_core_is_taken_back<D: Device>(key: &Core<D>)
    ensures { (v : Known (core D)) (port : core D) → IsFound (port_of D.Device.own) key.now v port
        → IsTakenBack D.Device.own key.now v port }
{}

/// A core may go to another thread where its disk may.
pub fn a_core_crosses<D: Device>(_core: &Core<D>)
    ensures { IsSend D.row → IsSend (core_type.the_row D.row) }
{}
