// How long a visit waits for a client that doesn't take its replies.
ghost use Rattle.std.specs.Prelude.{◌≡◌, ◌+◌, ◌-◌, ◌*◌, ◌/◌, ◌^◌, min};

/// How long the replies of a visit may wait for their client in all, in milliseconds.
const WAIT_MILLIS: u64 = 5_000;

/// For so many bytes that it took a second more.
const WAIT_BYTES_PER_SECOND: u64 = 1_000_000;

/// How long a visit waits for a client that doesn't take its replies: five seconds in all, and a second for each
/// 1,000,000 bytes that it took.
#[derive(Clone, Copy, Drop)]
pub struct Patience {
    /// How many bytes the client took in the visit.
    given: u64,
    /// How long it was waited for, in milliseconds.
    waited: u64,
}

impl Patience {
    /// That of a visit that begins.
    pub fn new() -> Patience
        ensures { (result.given ≡ 0) × (result.waited ≡ 0) }
    {
        Patience {
            given: 0,
            waited: 0,
        }
    }

    /// The client took so many bytes.
    pub fn gave(&mut self, count: usize)
        ensures given { self.new.given ≡ min (self.old.given + count) (2 ^ 64 - 1) }
        ensures waited { self.new.waited ≡ self.old.waited }
    {
        self.given = self.given.saturating_add(count as u64);
    }

    /// It was waited for, so many milliseconds.
    pub fn waits(&mut self, millis: u64)
        ensures waited { self.new.waited ≡ min (self.old.waited + millis) (2 ^ 64 - 1) }
        ensures given { self.new.given ≡ self.old.given }
    {
        self.waited = self.waited.saturating_add(millis);
    }

    /// How many milliseconds it is still waited for.
    pub fn left(&self) -> u64
        ensures { result ≡ 5000 + self.now.given / 1000000 * 1000 - self.now.waited }
    {
        let most = WAIT_MILLIS + self.given / WAIT_BYTES_PER_SECOND * 1_000;
        most.saturating_sub(self.waited)
    }
}
