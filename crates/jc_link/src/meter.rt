//! Counts of the work of linking.

ghost use Rattle.std.specs.Prelude.{◌≡◌, ◌<◌, ◌^◌};
ghost use Rattle.jc_link.specs.Meters.{counted};

/// The number of look-ups in a table, and the number of parts that were computed. A count stops at 2^64 - 1.
/// [`Table::new`](crate::Table::new) returns a meter with each table, and nothing else makes one.
#[derive(Drop)]
pub struct Meter {
    asks: u64,
    made: u64,
    ghost asks_fit: { asks < 2 ^ 64 },
    ghost made_fit: { made < 2 ^ 64 },
}

impl Meter {
    /// Returns a meter whose counts are 0.
    pub(crate) fn new() -> Meter
        ensures asks { result.asks ≡ 0 }
        ensures made { result.made ≡ 0 }
    {
        Meter { asks: 0, made: 0 }
    }

    /// Returns the number of look-ups in the table, whether they found a class or not.
    pub fn asks(&self) -> u64
        ensures { result ≡ self.now.asks }
    {
        self.asks
    }

    /// Returns the number of parts that were computed.
    pub fn made(&self) -> u64
        ensures { result ≡ self.now.made }
    {
        self.made
    }

    /// Counts one look-up.
    pub(crate) fn count_ask(&mut self)
        ensures asks { self.new.asks ≡ counted self.old.asks 1 }
        ensures made { self.new.made ≡ self.old.made }
    {
        self.asks = self.asks.saturating_add(1);
    }

    /// Counts one part.
    pub(crate) fn count_part(&mut self)
        ensures made { self.new.made ≡ counted self.old.made 1 }
        ensures asks { self.new.asks ≡ self.old.asks }
    {
        self.made = self.made.saturating_add(1);
    }
}
