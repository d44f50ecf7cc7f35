mod events;
mod pictures;
