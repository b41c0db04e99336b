// The receiver for other languages: every call of the door `fastcgi_queue` as a function of C, with the state and the
// answers as numbers and arrays. A slice is a pointer and a length there. include/yotnaghez.h declares them.
//
// Each function has one shape. A state, an event, a reader or a stream with an unknown code is refused by 9, with the
// state as it came. Otherwise the state is read, the call is made, and its answer is put into numbers.
#![tactic(auto)]

mod ask;
mod body;
mod feed;
mod say;
mod wait;
