mod runs;
mod telling;
