mod blend;
mod cover;
mod draw;
mod tile;
