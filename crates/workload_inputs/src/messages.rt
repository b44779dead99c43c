//! The records of messages and of sessions.

ghost use Rattle.std.specs.Prelude.{◌<◌};

use crate::octets::Octets;
use crate::peers::Peer;
use crate::world::World;

/// The types of messages (RFC 6396, section 4.4), without microseconds and with them (section 3).
const BGP4MP: u16 = 16;

const BGP4MP_ET: u16 = 17;

/// The subtypes of messages and of changes of a session's state, with AS numbers of four octets.
const MESSAGE_AS4: u16 = 4;

const STATE_CHANGE_AS4: u16 = 5;

/// The states of sessions (RFC 4271, section 8.2.2).
const IDLE: u16 = 1;

const ESTABLISHED: u16 = 6;

/// How many octets a message has in front of its body (RFC 4271, section 4.1).
const FRONT: usize = 19;

impl World {
    /// Goes on in time, and begins a body with the microseconds, where they stand there, and the
    /// session of a peer.
    pub(crate) fn begin(&mut self, peer: &Peer, precise: bool) {
        let passed = 200 + self.chance.below(1_600);
        self.micros = self.micros.wrapping_add(u64::from(passed));
        self.body.clear();
        if precise {
            self.body.put_u32((self.micros % 1_000_000) as u32);
        }
        peer.put_session(&mut self.body);
    }

    /// Appends a record of a message with the body that stands there.
    pub(crate) fn put_message(&mut self, octets: &mut Octets, kind: u8, precise: bool) {
        self.body.put(&[0xff; 16]);
        let len = self.update.len().saturating_add(FRONT);
        self.body.put_len16(len);
        self.body.put(&[kind]);
        self.body.put_octets(&self.update);
        let record = if precise { BGP4MP_ET } else { BGP4MP };
        self.put_record(octets, record, MESSAGE_AS4);
    }

    /// Appends a record of a session that goes from a state to another.
    fn put_state(&mut self, octets: &mut Octets, peer: &Peer, old: u16, new: u16) {
        self.begin(peer, false);
        self.body.put_u16(old);
        self.body.put_u16(new);
        self.put_record(octets, BGP4MP, STATE_CHANGE_AS4);
    }

    /// Appends the loss of a session, or where the number is odd its return.
    pub(crate) fn put_flap(&mut self, octets: &mut Octets, peer: &Peer, number: u32) {
        if number % 2 == 0 {
            self.put_state(octets, peer, ESTABLISHED, IDLE);
        } else {
            self.put_state(octets, peer, IDLE, ESTABLISHED);
        }
    }

    /// Appends the loss of the first peer's session, or where the number is odd its return.
    pub(crate) fn put_first_flap(&mut self, octets: &mut Octets, number: u32) {
        if let Some(peer) = self.v4.peer(0) {
            self.put_flap(octets, &peer, number);
        }
    }

    /// Appends a record that is reported: of a type that isn't read, or of a body that is cut.
    pub(crate) fn put_damaged(&mut self, octets: &mut Octets) {
        let Some(peer) = self.v4.peer(0) else {
            return;
        };
        self.begin(&peer, false);
        let kind = self.chance.below(3);
        if kind == 0 {
            self.put_record(octets, 11, 0);
        } else {
            self.make_cut(kind == 1);
            self.put_message(octets, 2, false);
        }
    }

    /// Makes the body of an UPDATE that is cut in the prefixes that it withdraws, or else in its
    /// attributes.
    fn make_cut(&mut self, withdraws: bool) {
        self.update.clear();
        if withdraws {
            self.update.put(&[0, 9, 8]);
        } else {
            self.update.put(&[0, 0, 0, 4, 0x40, 1, 1, 7]);
        }
    }
}
