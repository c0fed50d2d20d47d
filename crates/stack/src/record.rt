// The first `count` slots of the table are the stack, the newest entry last. What the slots behind them hold is open. The caller lends the table, so there is no `Vec`.
#[derive(Drop)]
pub struct Stack<'t, T> {
    pub(crate) slots: &'t mut [T],
    pub(crate) count: usize,
}
