// Splitting and joining seats.
ghost use Rattle.std.specs.Prelude.{◌≡◌};
ghost use Rattle.head_table.specs.{HasTighter, IsSeatOf, seen_of};

use crate::known::{Both, Same};
use crate::table::{HeadSeat, HeadTable};

impl<'a> HeadTable<'a> {
    /// A second seat, which has seen what this one has.
    pub fn split(&self, seat: &mut HeadSeat) -> HeadSeat
        requires { IsSeatOf self.now seat.old }
        ensures old { IsSeatOf self.now seat.new × (seen_of seat.new ≡ seen_of seat.old) }
        ensures new { IsSeatOf self.now result × (seen_of result ≡ seen_of seat.old) }
    {
        let other = self.table.shared.split_seat::<Same>(&mut seat.seat);
        HeadSeat { seat: other }
    }

    /// Joins another seat into this one, which has then seen the tighter of both.
    pub fn join(&self, seat: &mut HeadSeat, other: HeadSeat)
        requires seat { IsSeatOf self.now seat.old }
        requires other { IsSeatOf self.now other }
        ensures seat { IsSeatOf self.now seat.new }
        ensures tighter { HasTighter self.now.problem.now seat.old other seat.new }
    {
        let HeadSeat { seat: other } = other;
        self.table.shared.join_seat::<Both>(&mut seat.seat, other);
    }
}
