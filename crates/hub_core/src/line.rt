//! One line: its bytes, its request, the reply, and the words of the reply.

pub(crate) mod bytes;
pub(crate) mod reply;
pub(crate) mod request;
pub(crate) mod wording;
