mod crew;
mod history;
