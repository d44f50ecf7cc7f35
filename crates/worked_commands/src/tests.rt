mod arguments;
mod cli;
mod listing;
mod pam;
mod screen;
