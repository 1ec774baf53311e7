// Callers of functions that a page names, which lend and hand in all that these may be given: any slice as long as a store or the line's
// array, R as an endpoint has it, text for any buffer behind any place, a refusal that is a number alone, a buffer that is used on while a
// call read into it is kept. Nothing calls them: that they are proved shows that those functions ask no more.
#![tactic(auto)]

mod answers; // what an answer says, whatever refused it
mod calls; // the calls of a host, with a store as a slice
mod held; // held bytes, with the array of the line as a slice
mod listing; // the lines of a listing, for a buffer behind a place
mod live; // live requests, with a store as a slice
mod scripts; // a call that is read
mod text; // text for a buffer behind a place
