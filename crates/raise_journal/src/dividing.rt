// How often a replay divides what a debtor may spend among its debts.
#[derive(Clone, Copy)]
pub(crate) enum Dividing {
    // Anew for each raise.
    ForEachRaise,
    // Once for the raises of one visit: what the debtor was found to pay is kept for the next ones.
    OncePerVisit,
}
