// A client that is no longer answered.
ghost use Rattle.std.specs.Prelude.{◌≡◌, ◌≤◌, ◌+◌, [], true, false};
ghost use Rattle.aas_clients.specs.Replies.{promised};

use crate::client::Client;
use crate::outbox::{Outbox, pour};
use crate::socket::{Found, Socket};

/// How long it may take what waits for it, in milliseconds.
const GIVING_MILLIS: u64 = 5_000;

/// How long it may then end its own side.
const CLOSING_MILLIS: u64 = 2_000;

/// How many pieces are given up of it before others are looked at.
const PIECES: u32 = 80;

/// A client that is no longer answered. It still gets what it hasn't taken; then this side is ended; then
/// what it still sends is given up, until it ends its side or its time is up.
#[derive(Drop)]
pub struct Parting<S: Socket> {
    pub socket: S,
    pub replies: Outbox,
    /// Whether this side is ended.
    pub is_shut: bool,
    /// Since when it takes the step.
    pub since: u64,
    ghost behind: { is_shut ≡ true → replies.bytes.items ≡ [] },
}

impl<S: Socket> Parting<S> {
    /// A client that was open until now.
    pub(crate) fn of(client: Client<S>, now: u64) -> Parting<S>
        ensures replies { result.replies ≡ client.replies }
        ensures taken { S.taken result.socket ≡ S.taken client.socket }
        ensures since { result.since ≡ now }
        ensures not_shut { result.is_shut ≡ false }
    {
        let Client {
            socket,
            replies,
            ..
        } = client;
        Parting {
            socket,
            replies,
            is_shut: false,
            since: now,
        }
    }

    /// Goes on as far as that is possible without waiting. Whether it is over.
    pub(crate) fn goes_on(&mut self, piece: &mut [u8], now: u64) -> bool
        ensures promised { promised (S.taken self.new.socket) self.new.replies.bytes.items
            ≡ promised (S.taken self.old.socket) self.old.replies.bytes.items }
        ensures shut { self.old.is_shut ≡ true → self.new.is_shut ≡ true }
        ensures giving { self.old.is_shut ≡ false → self.old.since + 5000 ≤ now → result ≡ true }
        ensures closing { self.old.is_shut ≡ true → self.old.since + 2000 ≤ now → result ≡ true }
    {
        if self.is_late(now) {
            return true;
        }
        if self.is_shut {
            return self.gives_up(piece);
        }
        if !pour(&mut self.socket, &mut self.replies) {
            return true;
        }
        if !self.replies.is_empty() {
            return false;
        }
        if !self.socket.shut() {
            return true;
        }
        self.is_shut = true;
        self.since = now;
        false
    }

    fn is_late(&self, now: u64) -> bool
        ensures giving { self.now.is_shut ≡ false → self.now.since + 5000 ≤ now → result ≡ true }
        ensures closing { self.now.is_shut ≡ true → self.now.since + 2000 ≤ now → result ≡ true }
    {
        let time = if self.is_shut {
            CLOSING_MILLIS
        } else {
            GIVING_MILLIS
        };
        now.saturating_sub(self.since) >= time
    }

    /// Gives up what it still sends. Whether it has ended its side.
    fn gives_up(&mut self, piece: &mut [u8]) -> bool
        ensures taken { S.taken self.new.socket ≡ S.taken self.old.socket }
        ensures replies { self.new.replies ≡ self.old.replies }
        ensures shut { self.new.is_shut ≡ self.old.is_shut }
    {
        for _ in 0..PIECES {
            match self.socket.read(piece) {
                Found::Bytes(_) => {}
                Found::NotNow => return false,
                Found::End => return true,
                Found::Failed => return true,
            }
        }
        false
    }
}
