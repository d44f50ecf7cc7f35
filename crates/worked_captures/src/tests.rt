mod captures;
mod device;
mod values;
mod words;
