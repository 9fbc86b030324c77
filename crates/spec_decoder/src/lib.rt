//! A decoder, as definitions: from a stream's bytes to the pictures that it shows, and to the slices that it reads (ITU-T H.264, clauses 7
//! to 9 and C.4.5). `Frames` has `decode` and `slices_read`; nothing here is an encoder's, and nothing is code.
#![tactic(auto)]
