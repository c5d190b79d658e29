// The head of a record at any of the three places.
#[derive(Clone, Copy)]
pub enum Head<N, M, E> {
    Name(N),
    Message(M),
    Alert(E),
}
