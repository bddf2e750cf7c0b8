//! What is answered to a request.

use crate::page::{Page, page_at};
use bytes::{BufMut, Bytes};
use http::{HeaderValue, Method, Request, StatusCode, header};
use http_server::{Response, Service};
use server_metrics::Health;
use server_tally::Tally;
use std::alloc::{AllocError, Global};
use std::time::Clock;

/// Answers requests from a server's tally.
#[derive(Drop)]
pub(crate) struct Pages<'a, T> {
    pub rt: &'a T,
    pub alloc: Global,
    pub tally: &'a Tally,
    /// The memory of the process in bytes, if the system tells.
    pub memory: Option<u64>,
    /// For how many milliseconds the leader of a healthy server may be silent.
    pub limit: u64,
}

const TEXT: &str = "text/plain; charset=utf-8";

const METRICS: &str = "text/plain; version=0.0.4; charset=utf-8";

fn put(response: &mut Response, text: &[u8]) -> Result<(), AllocError> {
    response.body.put_slice(text)
}

fn refuse(response: &mut Response, status: StatusCode, text: &str) -> Result<(), AllocError> {
    response.status = status;
    put(response, text.as_bytes())
}

impl<'a, T: Clock> Pages<'a, T> {
    fn put_metrics(&self, response: &mut Response) -> Result<(), AllocError> {
        match self.tally.metrics(self.rt, self.alloc, self.memory) {
            Ok(text) => put(response, text.as_slice()),
            Err(_) => Err(AllocError),
        }
    }

    fn put_health(&self, response: &mut Response) -> Result<(), AllocError> {
        match self.tally.health(self.rt, self.limit) {
            Health::Healthy => put(response, b"ok\n"),
            Health::NotServing => refuse(
                response,
                StatusCode::SERVICE_UNAVAILABLE,
                "clients are not served\n",
            ),
            Health::Silent(silent) => {
                let text = format!(in self.alloc;
                    "the leader has been silent for {silent} milliseconds\n"
                )?;
                refuse(response, StatusCode::SERVICE_UNAVAILABLE, text.as_str())
            }
        }
    }

    fn put_live(&self, response: &mut Response) -> Result<(), AllocError> {
        if self.tally.is_live(self.rt) {
            return put(response, b"ok\n");
        }
        refuse(
            response,
            StatusCode::SERVICE_UNAVAILABLE,
            "the engine has made no turn for ten seconds\n",
        )
    }

    fn put_page(&self, page: Option<Page>, response: &mut Response) -> Result<(), AllocError> {
        match page {
            None => refuse(response, StatusCode::NOT_FOUND, "not found\n"),
            Some(Page::Metrics) => self.put_metrics(response),
            Some(Page::Health) => self.put_health(response),
            Some(Page::Live) => self.put_live(response),
        }
    }
}

impl<'a, T: Clock> Service for Pages<'a, T> {
    // Nothing is stated of an answer here.
    ghost answers = { λ old request response new. Unit {0} };

    fn call(
        &mut self,
        request: &Request<Bytes>,
        response: &mut Response,
    ) -> Result<(), AllocError> {
        let page = page_at(request.uri().path());
        let kind = if page == Some(Page::Metrics) {
            METRICS
        } else {
            TEXT
        };
        response.add_header(header::CONTENT_TYPE, HeaderValue::from_static(kind))?;
        response.add_header(header::CONNECTION, HeaderValue::from_static("close"))?;
        let method = request.method();
        if *method != Method::GET && *method != Method::HEAD {
            response.add_header(header::ALLOW, HeaderValue::from_static("GET, HEAD"))?;
            return refuse(
                response,
                StatusCode::METHOD_NOT_ALLOWED,
                "only GET and HEAD are answered\n",
            );
        }
        self.put_page(page, response)
    }
}
