// A module for each part; `seeds` is of `pgn_base`.
mod entries;
mod seeds;
mod streams;
