//! The window.

ghost use Rattle.std.specs.Prelude.{◌≡◌, ℕ, ◌+◌, ◌-◌, ◌^◌, ◌<◌, ◌≤◌, ◌↔◌, IsTrue, OnErr, OnOk, Err};
ghost use Rattle.std.specs.Int.{bit_at};
ghost use Rattle.krb_window.specs.Window.{IsTaken, IsTooOld, Marks, Moves, Takes, TakesNoneBelow, window_size};

/// How many numbers a window distinguishes: the highest that was taken, and those below it.
pub const WINDOW_SIZE: u64 = 64;

/// Which numbers were taken. Any two numbers are a window, and zeros are one that took none.
#[repr(C)]
#[derive(Clone, Copy)]
pub struct Window {
    /// The highest number that was taken, or 0.
    pub highest: u64,
    /// Whether it was, and the 63 numbers below it: bit 63 is the highest number's, and each lower
    /// bit that of the number one lower.
    pub taken: u64,
}

/// Why a number isn't taken.
#[derive(Clone, Copy)]
pub enum Untaken {
    /// It was taken before.
    Repeated,
    /// It is 64 or more below the highest number that was taken.
    TooOld,
}

impl Window {
    /// A window that takes the numbers from `first` on, and none below.
    pub fn new(first: u64) -> Window
        ensures { TakesNoneBelow first result }
    {
        if first == 0 {
            return Window {
                highest: 0,
                taken: 0,
            };
        }
        Window {
            highest: first - 1,
            taken: u64::MAX,
        }
    }

    /// Takes a number, or says why not. Then the window is as it was.
    pub fn take(&mut self, number: u64) -> Result<(), Untaken>
        ensures taken { OnOk result (Takes self.old number self.new) }
        ensures repeated { (result ≡ Err Untaken.Repeated) ↔ IsTaken self.old number }
        ensures too_old { (result ≡ Err Untaken.TooOld) ↔ IsTooOld self.old number }
        ensures unchanged { OnErr result (self.new ≡ self.old) }
    {
        if number > self.highest {
            self.advance(number - self.highest);
            return Ok(());
        }
        let back = self.highest - number;
        if back >= WINDOW_SIZE {
            return Err(Untaken::TooOld);
        }
        if self.has(back) {
            return Err(Untaken::Repeated);
        }
        self.mark(back);
        Ok(())
    }

    /// Whether the number so far below the highest was taken.
    fn has(&self, back: u64) -> bool
        requires { back < window_size }
        ensures { IsTrue result ↔ (bit_at self.now.taken (63 - back) ≡ 1) }
    {
        self.taken & (1 << (63 - back)) != 0
    }

    /// Takes the number so far below the highest.
    fn mark(&mut self, back: u64)
        requires { back < window_size }
        ensures { Marks self.old back self.new }
    {
        self.taken |= 1 << (63 - back);
    }

    /// Takes the number so far above the highest, and is the highest from then on.
    fn advance(&mut self, ahead: u64)
        requires above { 0 < ahead }
        requires fits { self.old.highest + ahead < 2 ^ 64 }
        ensures { Moves self.old ahead self.new }
    {
        self.taken = shifted(self.taken, ahead) | 1 << 63;
        self.highest += ahead;
    }
}

/// The bits moved down by so many, without those that fall off.
fn shifted(bits: u64, by: u64) -> u64
    ensures kept { (i : ℕ) → bit_at result i ≡ bit_at bits (i + by) }
    ensures none { (i : ℕ) → 64 ≤ i + by → bit_at result i ≡ 0 }
{
    if by < WINDOW_SIZE { bits >> by } else { 0 }
}
