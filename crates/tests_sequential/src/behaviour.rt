//! Turns, regions, texts of journals and replays.

mod compare;
mod dumps;
mod event_queue;
mod held;
mod journal_text;
mod observed;
mod observed_searches;
mod refused;
mod replaced;
mod replayed;
mod replays;
mod scarce;
mod searches;
mod streams;
mod too_long;
mod turns;
