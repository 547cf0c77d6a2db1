/// The side of a division. On the right the multiples of the divisor `b` are left multiples `c b`, on the left
/// right multiples `b c`.
#[derive(Clone, Copy)]
pub(crate) enum Side {
    Right,
    Left,
}
