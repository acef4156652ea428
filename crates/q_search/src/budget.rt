// What a search may cost: branches are paid for one by one, and none is begun that can't be paid.
ghost use Rattle.q_search.specs.Budgets.{IsPayment};

/// Takes one decision from what is left of a budget, and says whether one was left. Without a budget all are.
pub fn pay(left: &mut Option<u64>) -> bool
    ensures { IsPayment left.old left.new result }
{
    match *left {
        None => true,
        Some(0) => false,
        Some(n) => {
            *left = Some(n - 1);
            true
        }
    }
}
