//! What is promised of a history: definitions alone, for a reader to judge.
//! That every run keeps them is proved in the crates above.
//!
//! A site is read off its own steps, in its present life: the records that its
//! last rise gave, and its deeds (`qc_msg`) since (`Lifetimes`). What it is, each
//! part as a sentence over these: its life and its epoch (`SiteRecords`), what
//! transactions hold there (`SiteHeld`), what it has promised (`SitePromises`),
//! the lines that it knows and those that its records give (`SiteLogs`), its
//! clock (`SiteClocks`). By these, its turn for each input and for a rise: which
//! refusal, which grant, which record (`SiteDue`). What it posts is one of the
//! posts of that turn: its record is written, fails or stops (`Posts`).
//!
//! A client's replies are due. What has happened at it so far is an account of
//! its deeds (`Account`, `Accounting`): whether it is up, its life, the running
//! command, its requests (`Asked`), each with the first thing that was taken for
//! it, and what they come to (`Rounds`). A fall ends what it was doing; at a rise
//! the account begins anew with its records. The reply that is due is the first
//! row of a table that applies (`Rows`). `Replies` says of a client's deeds that
//! each is due: each reply, with the record that was written before it or was
//! pending at the fall behind it (`Posts`), each record, what it does as it rises,
//! and that no input is taken while a reply is due that isn't told.
//!
//! Every actor goes by turns: which deed leads from which of eight places to
//! which (`Turns`). Messages reach those whom they were sent to (`Mail`). `Due`
//! is these, what all clients are owed, and what sites post.
//!
//! What committed is one copy's. The commit records of a history (`Committed`),
//! what clients were told of their transactions (`Deals`, `Told`), what they had
//! seen (`Seen`), what becomes of a transaction (`Status`), and all of it as one
//! record (`Atomic`). Its premise is that no record is lost (`Kept`); falls are
//! held against what was armed and what disks counted (`Spent`).
#![tactic(auto)]
