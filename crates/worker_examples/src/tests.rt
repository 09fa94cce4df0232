mod boards;
mod inboxes;
mod workers;
